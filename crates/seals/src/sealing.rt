// Sealing a sheet: its seal part, written into a lent buffer.
ghost use Rattle.std.specs.Prelude.{◌≡◌, ℕ, ◌+◌, ◌*◌, ◌<◌, ◌≤◌, ◌++◌, length, take, drop, ◌&&◌, ◌==◌, nat_lt, IfErr, IfOk, OnOk};
ghost use Rattle.std.specs.Result.{result_map_both};
ghost use Rattle.keys.specs.Key.{buffer_after};
ghost use Rattle.digests.specs.Strings.{same};
ghost use Rattle.sheets.specs.Blocks.{blocks_of};
ghost use Rattle.seals.specs.Scheme.{scheme, inspection};
ghost use Rattle.seals.specs.Law.{Promised};
ghost use Rattle.seals.specs.Part.{seal_head, digests_of_rows, text_to_sign, signed_part};
ghost use Rattle.seals.specs.Calls.{seal_answer, part_length};

use crate::frames::{View, row_digest, whole_digest};
use crate::part::{DIGEST, HEAD};
use answers::{Refusal, RowNumber};
use digests::{Digest, same_bytes};
use families::family::Family;
use keys::{Drawn, Sealer, burn};
use sheets::Sheet;

// Seals a sheet under a drawn number: writes the seal part to the front of the buffer, and answers its length. A refused seal hands the number back.
#[tactic(auto, using(crate::proofs::Sealed::part_size, crate::proofs::Sealed::counted, crate::proofs::Sealed::was_drawn, crate::proofs::Sealed::has_room, crate::proofs::Sealed::length_is))]
pub fn seal<D: Digest, F: Family, S: Sealer>(
    sheet: &Sheet,
    family: &F,
    sealer: &S,
    drawn: Drawn,
    out: &mut [u8],
) -> Result<usize, (Refusal, Drawn)>
    ensures answer { result_map_both (λ n. n) (λ e. e.0) result ≡ seal_answer (F.shape family.now) (S.key sealer.now) drawn.key drawn.number (blocks_of sheet.now) (length out.old) }
    ensures token { IfErr result (λ e. e.1 ≡ drawn) }
    ensures long { IfOk result (λ n. length (signed_part (scheme D.digest D.KIND (F.shape family.now)) (S.kind sealer.now) (S.signature sealer.now drawn.number) drawn.number (blocks_of sheet.now)) ≡ n) }
    ensures buffer { out.new
        ≡ buffer_after result (signed_part (scheme D.digest D.KIND (F.shape family.now)) (S.kind sealer.now) (S.signature sealer.now drawn.number) drawn.number (blocks_of sheet.now)) out.old }
    ensures law { OnOk result ((own : S.Own) → S.owns sealer.now own
        → Promised (scheme D.digest D.KIND (F.shape family.now)) (inspection (S.Own.kind own) (S.Own.says own))
        (signed_part (scheme D.digest D.KIND (F.shape family.now)) (S.kind sealer.now) (S.signature sealer.now drawn.number) drawn.number (blocks_of sheet.now)) (blocks_of sheet.now)) }
{
    let length = match seal_length(sheet, family, sealer, &drawn, out.len()) {
        Ok(length) => length,
        Err(refusal) => return Err((refusal, drawn)),
    };
    let number = burn(drawn);
    write_part::<D, F, S>(sheet, family, sealer, number, &mut out[..length]);
    Ok(length)
}

// The length of the seal part, if a sheet can be sealed.
#[tactic(auto, unfolding(crate::specs::Calls::seal_answer))]
fn seal_length<F: Family, S: Sealer>(
    sheet: &Sheet,
    family: &F,
    sealer: &S,
    drawn: &Drawn,
    room: usize,
) -> Result<usize, Refusal>
    ensures { result ≡ seal_answer (F.shape family.now) (S.key sealer.now) drawn.now.key drawn.now.number (blocks_of sheet.now) room }
{
    if sheet.is_empty() {
        return Err(Refusal::SheetEmpty);
    }
    if family.block_count() != sheet.block_count() {
        return Err(Refusal::OtherScheme);
    }
    if !is_drawn_by(drawn, sealer) {
        return Err(Refusal::NotDrawn);
    }
    let length = HEAD + DIGEST * (usize::from(family.row_count()) + 1) + 2 + sealer.signature_len();
    if room < length {
        return Err(Refusal::NoRoom);
    }
    Ok(length)
}

// Whether a number was drawn under a sealer's name, and by now.
fn is_drawn_by<S: Sealer>(drawn: &Drawn, sealer: &S) -> bool
    ensures { result ≡ (same drawn.now.key (S.key sealer.now).name && nat_lt drawn.now.number (S.key sealer.now).next) }
{
    same_bytes(&drawn.key_name(), &sealer.key_name())
        && u64::from(drawn.number()) < sealer.next_number()
}

// The first sixteen bytes.
#[tactic(auto, using(crate::proofs::Sealed::number_bytes), unfolding(crate::specs::Part::seal_head))]
fn seal_head<D: Digest, F: Family>(family: &F, sealer_kind: u8, number: u32) -> [u8; 16]
    ensures { result ≡ seal_head (scheme D.digest D.KIND (F.shape family.now)) sealer_kind number }
{
    let [n1, n0] = family.block_count().to_be_bytes();
    let [d1, d0] = family.strength().to_be_bytes();
    let [t1, t0] = family.row_count().to_be_bytes();
    let [s3, s2, s1, s0] = number.to_be_bytes();
    [
        n1,
        n0,
        family.kind_byte(),
        family.q(),
        family.k(),
        D::KIND,
        sealer_kind,
        0,
        d1,
        d0,
        t1,
        t0,
        s3,
        s2,
        s1,
        s0,
    ]
}

#[tactic(auto, using(crate::proofs::Sealed::digests_more), unfolding(crate::specs::Part::digests_of_rows))]
fn write_row_digests<D: Digest, F: Family>(sheet: &Sheet, family: &F, out: &mut [u8])
    requires count { length (blocks_of sheet.now) ≡ (F.shape family.now).blocks }
    requires room { length out.old ≡ 32 * (F.shape family.now).rows }
    ensures { out.new ≡ digests_of_rows (scheme D.digest D.KIND (F.shape family.now)) (blocks_of sheet.now) 1 (F.shape family.now).rows }
{
    let blocks = View { sheet, offer: None };
    for index in 0..family.row_count() {
        let digest = row_digest::<D, F>(family, RowNumber(index + 1), &blocks);
        put_digest(out, DIGEST * usize::from(index), &digest);
    }
}

// Writes a digest behind the bytes before a place.
fn put_digest(out: &mut [u8], place: usize, digest: &[u8; 32])
    requires { place + 32 ≤ length out.old }
    ensures behind { take (place + 32) out.new ≡ take place out.old ++ digest.now }
    ensures long { length out.new ≡ length out.old }
{
    out[place..place + DIGEST].copy_from_slice(digest);
}

// The text to be signed.
#[tactic(auto, unfolding(crate::specs::Part::text_to_sign, crate::specs::Part::seal_head))]
fn write_text<D: Digest, F: Family>(
    sheet: &Sheet,
    family: &F,
    sealer_kind: u8,
    number: u32,
    text: &mut [u8],
)
    requires count { length (blocks_of sheet.now) ≡ (F.shape family.now).blocks }
    requires room { length text.old ≡ 48 + 32 * (F.shape family.now).rows }
    ensures { text.new ≡ text_to_sign (scheme D.digest D.KIND (F.shape family.now)) sealer_kind number (blocks_of sheet.now) }
{
    let (head, digests) = text.split_at_mut(HEAD);
    let (rows, whole) = digests.split_at_mut(DIGEST * usize::from(family.row_count()));
    head.copy_from_slice(&seal_head::<D, F>(family, sealer_kind, number));
    write_row_digests::<D, F>(sheet, family, rows);
    whole.copy_from_slice(&whole_digest::<D>(sheet));
}

// The seal part, with the sealer's signature.
#[tactic(auto, unfolding(crate::specs::Part::seal_part))]
fn write_part<D: Digest, F: Family, S: Sealer>(
    sheet: &Sheet,
    family: &F,
    sealer: &S,
    number: u32,
    part: &mut [u8],
)
    requires count { length (blocks_of sheet.now) ≡ (F.shape family.now).blocks }
    requires room { length part.old ≡ part_length (F.shape family.now).rows (S.key sealer.now).size }
    requires drawn { number < (S.key sealer.now).next }
    ensures { part.new ≡ signed_part (scheme D.digest D.KIND (F.shape family.now)) (S.kind sealer.now) (S.signature sealer.now number) number (blocks_of sheet.now) }
{
    let size = sealer.signature_len();
    let end = part.len() - 2 - size;
    let (text, rest) = part.split_at_mut(end);
    let (length, signature) = rest.split_at_mut(2);
    write_text::<D, F>(sheet, family, sealer.kind_byte(), number, text);
    length.copy_from_slice(&(size as u16).to_be_bytes());
    sign_all(sealer, number, text, signature);
}

// The signature to a text, into a buffer of its length. It cannot refuse, since the number is drawn and there is room.
#[tactic(auto, using(crate::proofs::Sealed::all_written))]
fn sign_all<S: Sealer>(sealer: &S, number: u32, text: &[u8], out: &mut [u8])
    requires { (number < (S.key sealer.now).next) × (length out.old ≡ (S.key sealer.now).size) }
    ensures { out.new ≡ S.signature sealer.now number text.now }
{
    sealer.sign(number, text, out).unwrap();
}
