// Calls that make a seal part, and those that work by one.
ghost use Rattle.std.specs.Prelude.{◌≡◌, ◌++◌, length, codes, IfOk, IfErr, string_bytes};
ghost use Rattle.std.specs.Result.{result_map_both};
ghost use Rattle.answers.specs.Refusals.{spaced};
ghost use Rattle.desk.specs.Named.{scheme_by};
ghost use Rattle.families.specs.Any.{any_shape};
ghost use Rattle.keys.specs.Key.{buffer_after};
ghost use Rattle.seals.specs.Scheme.{inspection};
ghost use Rattle.seals.specs.Part.{signed_part};
ghost use Rattle.seals.specs.Calls.{seal_answer, accept_answer};
ghost use Rattle.scripts.specs.Hex.{hex_text};
ghost use Rattle.sheets.specs.Blocks.{blocks_of};
ghost use Rattle.keyfiles.specs.Keys.{key_kind, key_says, key_of, key_signature};
ghost use Rattle.nazkoiber.specs.Script.{seal, part, set_part, accept, check, vouch, excerpt, confirm};
ghost use Rattle.nazkoiber.specs.State.{state};
ghost use Rattle.nazkoiber.specs.Answering.{Answered, ready};

use super::{Bench, Missing, Stop};
use answers::{BlockNumber, Refusal, RowNumber};
use blake2s::Blake2s;
use desk::{check_by, confirm_by, vouch_by};
use families::any::AnyFamily;
use keyfiles::AnyKey;
use keys::{Drawn, Sealer};
use scripts::Hex;
use seals::{Accepted, accept, seal};
use sha256::Sha256;
use sheets::Sheet;
use std::alloc::{AllocError, Global};
use std::fmt::Write;
use told::Algorithm;

impl Bench {
    pub(super) fn show_part(&self) -> Result<String, Stop>
        ensures { Answered part (state self.now) (state self.now) result }
    {
        let part = self.part.as_ref().ok_or(Missing::NoPart)?;
        let bytes = Hex(part);
        Ok(format!(in self.alloc; "part {bytes}")?)
    }

    pub(super) fn set_part(&mut self, bytes: Vec<u8>) -> Result<String, Stop>
        ensures { Answered (set_part bytes.items) (state self.old) (state self.new) result }
    {
        let length = bytes.len();
        self.accepted = false;
        self.part = Some(bytes);
        Ok(format!(in self.alloc; "part {length}")?)
    }

    pub(super) fn accept(&mut self) -> Result<String, Stop>
        ensures { Answered accept (state self.old) (state self.new) result }
    {
        let part = self.part.as_ref().ok_or(Missing::NoPart)?;
        let key = self.key.as_ref().ok_or(Missing::NoKey)?;
        let number = accept_own(part, key)?.number();
        self.accepted = true;
        Ok(format!(in self.alloc; "accepted {number}")?)
    }

    // Seals under the number in the hand, into a buffer of so many bytes.
    #[tactic(auto, using(crate::proofs::Named::front_of))]
    pub(super) fn seal(&mut self, room: usize) -> Result<String, Stop>
        ensures { Answered (seal room) (state self.old) (state self.new) result }
    {
        let family = self.family.as_ref().ok_or(Missing::NoFamily)?;
        let key = self.key.as_ref().ok_or(Missing::NoKey)?;
        let mut out = vec![in self.alloc; 0; room]?;
        let drawn = self.hand.take().ok_or(Missing::HandEmpty)?;
        match seal_by(self.digest, &self.sheet, family, key, drawn, &mut out) {
            Ok(length) => {
                out.truncate(length);
                self.accepted = false;
                self.part = Some(out);
                Ok(format!(in self.alloc; "sealed {length}")?)
            }
            Err((refusal, drawn)) => {
                self.hand = Some(drawn);
                Err(Stop::Refused(refusal))
            }
        }
    }

    pub(super) fn check(&self, room: usize) -> Result<String, Stop>
        ensures { Answered (check room) (state self.now) (state self.now) result }
    {
        let (seal, family) = self.ready()?;
        let mut list = vec![in self.alloc; 0; room]?;
        let count = check_by(self.digest, &seal, &self.sheet, family, &mut list)?;
        Ok(named_text(self.alloc, &list[..count])?)
    }

    pub(super) fn vouch(&self, block: BlockNumber, offered: &[u8]) -> Result<String, Stop>
        ensures { Answered (vouch block.0 offered.now) (state self.now) (state self.now) result }
    {
        let (seal, family) = self.ready()?;
        let (row, length) = vouch_by(self.digest, &seal, &self.sheet, family, block, offered)?;
        let row = row.0;
        Ok(format!(in self.alloc; "row {row} length {length}")?)
    }

    pub(super) fn excerpt(
        &self,
        block: BlockNumber,
        row: RowNumber,
        room: usize,
    ) -> Result<String, Stop>
        ensures { Answered (excerpt block.0 row.0 room) (state self.now) (state self.now) result }
    {
        let (seal, family) = self.ready()?;
        let mut out = vec![in self.alloc; 0; room]?;
        let length = seal.excerpt(&self.sheet, family, block, row, &mut out)?;
        Ok(excerpt_text(self.alloc, &out[..length])?)
    }

    pub(super) fn confirm(
        &self,
        block: BlockNumber,
        row: RowNumber,
        offered: &[u8],
        others: &[u8],
    ) -> Result<String, Stop>
        ensures { Answered (confirm block.0 row.0 offered.now others.now) (state self.now) (state self.now) result }
    {
        let (seal, family) = self.ready()?;
        confirm_by(self.digest, &seal, family, block, row, offered, others)?;
        Ok(String::from_str(self.alloc, "confirmed")?)
    }

    // The accepted seal, and the family. The seal is accepted again, since what was accepted lies in the bench itself, and a value cannot lend from itself.
    #[tactic(auto, using(crate::proofs::Acceptance::accept_keeps))]
    fn ready(&self) -> Result<(Accepted<'_>, &AnyFamily), Missing>
        ensures { result_map_both (λ r. (r.0.part.now, any_shape r.1.now)) (λ e. e) result ≡ ready (state self.now) }
    {
        if !self.accepted {
            return Err(Missing::NotAccepted);
        }
        let part = self.part.as_ref().ok_or(Missing::NotAccepted)?;
        let key = self.key.as_ref().ok_or(Missing::NotAccepted)?;
        // This cannot refuse: the bench keeps that the key accepts the part.
        let seal = accept_own(part, key).unwrap();
        let family = self.family.as_ref().ok_or(Missing::NoFamily)?;
        Ok((seal, family))
    }
}

// By the digest that the script has set. A function of its own: behind a choice between two calls the proof would not know which was made.
fn seal_by(
    digest: Algorithm,
    sheet: &Sheet,
    family: &AnyFamily,
    key: &AnyKey,
    drawn: Drawn,
    out: &mut [u8],
) -> Result<usize, (Refusal, Drawn)>
    ensures answer { result_map_both (λ n. n) (λ e. e.0) result ≡ seal_answer (any_shape family.now) (key_of key.now) drawn.key drawn.number (blocks_of sheet.now) (length out.old) }
    ensures token { IfErr result (λ e. e.1 ≡ drawn) }
    ensures long { IfOk result (λ n. length (signed_part (scheme_by digest (any_shape family.now)) (key_kind key.now) (key_signature key.now drawn.number) drawn.number (blocks_of sheet.now)) ≡ n) }
    ensures buffer { out.new ≡ buffer_after result (signed_part (scheme_by digest (any_shape family.now)) (key_kind key.now) (key_signature key.now drawn.number) drawn.number (blocks_of sheet.now)) out.old }
{
    match digest {
        Algorithm::Sha256 => seal::<Sha256, _, _>(sheet, family, key, drawn, out),
        Algorithm::Blake2s => seal::<Blake2s, _, _>(sheet, family, key, drawn, out),
    }
}

fn excerpt_text(alloc: Global, bytes: &[u8]) -> Result<String, AllocError>
    ensures { IfOk result (λ s. string_bytes s ≡ codes "excerpt " ++ hex_text bytes.now) }
{
    let bytes = Hex(bytes);
    format!(in alloc; "excerpt {bytes}")
}

// The numbers of the blocks that are named.
#[tactic(auto, using(crate::proofs::Named::named_more, crate::proofs::Named::named_all))]
fn named_text(alloc: Global, numbers: &[u16]) -> Result<String, AllocError>
    ensures { IfOk result (λ s. string_bytes s ≡ codes "named" ++ spaced numbers.now) }
{
    let mut text = String::from_str(alloc, "named")?;
    for number in numbers {
        write!(text, " {number}")?;
    }
    Ok(text)
}

// Accepts a seal part by the key's own inspector.
#[tactic(auto, using(crate::proofs::Acceptance::accepts_alike))]
fn accept_own<'a>(part: &'a [u8], key: &AnyKey) -> Result<Accepted<'a>, Refusal>
    ensures { result_map_both (λ a. a.part.now) (λ e. e) result ≡ accept_answer (inspection (key_kind key.now) (key_says key.now)) part.entry.now }
{
    accept(part, &key.own())
}
