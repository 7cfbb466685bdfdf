// Keys that sign: what an inspector and a sealer are, numbers that are drawn once, and tag keys.
#![tactic(auto)]

ghost use Rattle.std.specs.Prelude.{◌≡◌, ℕ, ◌<◌, ◌≤◌, Bool, true, length, take, OnOk};
ghost use Rattle.digests.specs.Strings.{Bytes};
ghost use Rattle.keys.specs.Key.{Key, LawfulKey, draw_answer, sign_answer, sign_next_answer, key_after, buffer_after, UnchangedIfRefused, Kept};

use answers::Refusal;

mod buffer;
mod drawn;
mod tag;

pub use drawn::{Drawn, burn, draw};
pub use tag::{TagInspector, TagKey};

// Says yes or no to a signature, and to the same question always the same.
pub trait Inspector {
    // The number by which a seal names the kind of signature. No enum: an inspector of another crate brings a number of its own.
    ghost kind: { Self → ℕ };

    // Yes or no to a number, a text and a signature.
    ghost says: { Self → ℕ → Bytes → Bytes → Bool };

    fn kind_byte(&self) -> u8
        ensures { result ≡ kind self.now };

    fn inspect(&self, number: u32, text: &[u8], signature: &[u8]) -> bool
        ensures { result ≡ says self.now number text.now signature.now };

    ghost kind_range: { (i : Self) → (1 ≤ kind i) × (kind i ≤ 255) };
}

// An inspector that can also draw numbers and sign under those that it has drawn.
pub trait Sealer: Inspector {
    type Own: Inspector + Drop;

    ghost key: { Self → Key };

    // The signature to a number and a text.
    ghost signature: { Self → ℕ → Bytes → Bytes };

    // This inspector is the sealer's own. A relation, since some keys have several that say the same.
    ghost owns: { Self → Self.Own → Type 0 };

    fn key_name(&self) -> [u8; 8]
        ensures { result ≡ (key self.now).name };

    // Of 64 bits, as is the count: either may be 2^32.
    fn next_number(&self) -> u64
        ensures { result ≡ (key self.now).next };

    fn count_left(&self) -> u64
        ensures { result ≡ (key self.now).left };

    fn signature_len(&self) -> usize
        ensures { result ≡ (key self.now).size };

    fn own(&self) -> Self::Own
        ensures { owns self.now result };

    // The next number. `draw` makes a token of it, which cannot be lost: call that one.
    // What its clauses say relates a sealer before and after, which no invariant of one sealer could: so `draw` and `sign_next` say it again.
    fn draw_number(&mut self) -> Result<u32, Refusal>
        ensures answer { result ≡ draw_answer (key self.old) }
        ensures afterwards { key self.new ≡ key_after result (key self.old) }
        ensures unchanged { UnchangedIfRefused result self.new self.old }
        ensures kept { Kept Self.kind Self.says signature owns self.old self.new };

    // Writes the signature to a number that was drawn to the front of the buffer.
    fn sign(&self, number: u32, text: &[u8], out: &mut [u8]) -> Result<(), Refusal>
        ensures answer { result ≡ sign_answer (key self.now) number (length out.old) }
        ensures buffer { out.new ≡ buffer_after result (signature self.now number text.now) out.old }
        ensures yes { OnOk result (Self.says self.now number text.now (take (key self.now).size out.new) ≡ true) };

    ghost lawful: { (s : Self) → LawfulKey (key s) };

    ghost sized: { (s : Self) (number : ℕ) (text : Bytes) → length (signature s number text) ≡ (key s).size };

    ghost genuine: { (s : Self) (number : ℕ) (text : Bytes) → number < (key s).next → Self.says s number text (signature s number text) ≡ true };

    ghost own_alike: { (s : Self) (o : Self.Own) → owns s o → (Self.Own.kind o ≡ Self.kind s) × (Self.Own.says o ≡ Self.says s) };
}

// Signs a text under the next number, and answers what the sealer's own inspector says to the signature. That is yes, for every sealer.
pub fn sign_next<S: Sealer>(sealer: &mut S, text: &[u8], out: &mut [u8]) -> Result<bool, Refusal>
    ensures answer { result ≡ sign_next_answer (S.key sealer.old) (length out.old) }
    ensures afterwards { S.key sealer.new ≡ key_after result (S.key sealer.old) }
    ensures unchanged { UnchangedIfRefused result sealer.new sealer.old }
    ensures kept { Kept S.kind S.says S.signature S.owns sealer.old sealer.new }
    ensures buffer { out.new ≡ buffer_after result (S.signature sealer.old (S.key sealer.old).next text.now) out.old }
{
    let size = sealer.signature_len();
    if out.len() < size {
        return Err(Refusal::NoRoom);
    }
    let drawn = draw(sealer)?;
    let number = drawn.number();
    // This cannot refuse: the number is drawn, and there is room.
    sealer.sign(number, text, out).unwrap();
    let says = sealer.own().inspect(number, text, &out[..size]);
    burn(drawn);
    Ok(says)
}
