// Accepting a seal part.
ghost use Rattle.std.specs.Prelude.{◌≡◌, ◌≤◌, true, ◌&&◌, length, ◌==◌};
ghost use Rattle.std.specs.Result.{result_map_both};
ghost use Rattle.digests.specs.Strings.{same};
ghost use Rattle.sheets.specs.Blocks.{blocks_of};
ghost use Rattle.seals.specs.Scheme.{scheme, inspection};
ghost use Rattle.seals.specs.View.{viewed, Placed};
ghost use Rattle.seals.specs.Part.{is_seal_part, seal_number, part_sealer_kind, signed_text, signature_of, row_digest, part_rows};
ghost use Rattle.seals.specs.Calls.{accept_answer, same_family, same_scheme, same_count, passes, agrees};

use crate::frames::{View, row_digest, whole_digest};
use crate::part::{
    count_of, digest_kind_of, is_family_of, is_seal_part, read_number, row_digest_of,
    sealer_kind_of, signature_of, text_of, whole_digest_of,
};
use answers::{Refusal, RowNumber};
use digests::{Digest, same_bytes};
use families::family::Family;
use keys::Inspector;
use sheets::Sheet;

// A seal part that an inspector said yes to: a view of its bytes, which nothing but `accept` makes.
#[derive(Clone, Copy)]
pub struct Accepted<'a> {
    part: &'a [u8],
    ghost formed: { is_seal_part part.now ≡ true },
}

// Reads a seal part, if it is one, and is the inspector's.
#[tactic(auto, unfolding(crate::specs::Calls::accept_answer))]
pub fn accept<'a, I: Inspector>(part: &'a [u8], inspector: &I) -> Result<Accepted<'a>, Refusal>
    ensures { result_map_both (λ a. a.part.now) (λ e. e) result ≡ accept_answer (inspection (I.kind inspector.now) (I.says inspector.now)) part.entry.now }
{
    if !is_seal_part(part) {
        return Err(Refusal::Malformed);
    }
    if !is_genuine(part, inspector) {
        return Err(Refusal::NotGenuine);
    }
    Ok(Accepted { part })
}

// Whether an inspector says yes to a seal part of its kind.
#[tactic(auto, using(crate::proofs::Parts::part_long, crate::proofs::Parts::part_head))]
fn is_genuine<I: Inspector>(part: &[u8], inspector: &I) -> bool
    requires { is_seal_part part.now ≡ true }
    ensures { result ≡ (part_sealer_kind part.now == I.kind inspector.now && I.says inspector.now (seal_number part.now) (signed_text part.now) (signature_of part.now)) }
{
    sealer_kind_of(part) == inspector.kind_byte()
        && inspector.inspect(read_number(part), text_of(part), signature_of(part))
}

impl Accepted<'_> {
    // The seal number.
    #[tactic(auto, using(crate::proofs::Parts::part_long, crate::proofs::Parts::part_head))]
    pub fn number(&self) -> u32
        ensures { result ≡ seal_number self.now.part.now }
    {
        read_number(self.part)
    }

    #[tactic(auto, using(crate::proofs::Parts::part_head))]
    pub(crate) fn has_family<F: Family>(&self, family: &F) -> bool
        ensures { result ≡ same_family (F.shape family.now) self.now.part.now }
    {
        is_family_of(self.part, family)
    }

    #[tactic(auto, using(crate::proofs::Parts::part_head), unfolding(crate::specs::Calls::same_scheme))]
    pub(crate) fn has_scheme<D: Digest, F: Family>(&self, family: &F) -> bool
        ensures { result ≡ same_scheme (scheme D.digest D.KIND (F.shape family.now)) self.now.part.now }
    {
        self.has_family(family) && digest_kind_of(self.part) == D::KIND
    }

    // Whether the sheet has as many blocks as were sealed.
    #[tactic(auto, using(crate::proofs::Parts::part_head), unfolding(crate::specs::Calls::same_count))]
    pub(crate) fn has_count(&self, sheet: &Sheet) -> bool
        ensures { result ≡ same_count (blocks_of sheet.now) self.now.part.now }
    {
        sheet.block_count() == count_of(self.part)
    }

    // Whether a row has the digest that was sealed.
    #[tactic(auto, using(crate::proofs::Parts::part_long), unfolding(crate::specs::Calls::passes))]
    pub(crate) fn passes<D: Digest, F: Family>(
        &self,
        family: &F,
        row: RowNumber,
        blocks: &View,
    ) -> bool
        requires placed { Placed blocks.now }
        requires count { length (blocks_of blocks.now.sheet.now) ≡ (F.shape family.now).blocks }
        requires row { (1 ≤ row.0) × (row.0 ≤ part_rows self.now.part.now) }
        ensures { result ≡ passes (scheme D.digest D.KIND (F.shape family.now)) self.now.part.now (viewed blocks.now) row.0 }
    {
        same_bytes(
            &row_digest::<D, F>(family, row, blocks),
            row_digest_of(self.part, row),
        )
    }

    // Whether a digest is the one that was sealed for a row.
    #[tactic(auto, using(crate::proofs::Parts::part_long))]
    pub(crate) fn is_row_digest(&self, row: RowNumber, digest: &[u8]) -> bool
        requires { (1 ≤ row.0) × (row.0 ≤ part_rows self.now.part.now) }
        ensures { result ≡ same digest.now (row_digest self.now.part.now row.0) }
    {
        same_bytes(digest, row_digest_of(self.part, row))
    }

    // Whether the digest of the whole is the sealed one.
    #[tactic(auto, using(crate::proofs::Parts::part_long), unfolding(crate::specs::Calls::agrees))]
    pub(crate) fn agrees<D: Digest, F: Family>(&self, family: &F, sheet: &Sheet) -> bool
        ensures { result ≡ agrees (scheme D.digest D.KIND (F.shape family.now)) self.now.part.now (blocks_of sheet.now) }
    {
        same_bytes(&whole_digest::<D>(sheet), whole_digest_of(self.part))
    }
}
