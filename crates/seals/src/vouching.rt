// Vouching for offered bytes: a row passes with them in place of its block.
ghost use Rattle.std.specs.Prelude.{◌≡◌, ◌≤◌, true, slice_get};
ghost use Rattle.std.specs.Option.{option_map};
ghost use Rattle.std.specs.Result.{result_map_both};
ghost use Rattle.sheets.specs.Blocks.{blocks_of};
ghost use Rattle.seals.specs.Scheme.{scheme};
ghost use Rattle.seals.specs.View.{viewed, Placed};
ghost use Rattle.seals.specs.Calls.{same_scheme, same_count, vouch_answer};
ghost use Rattle.seals.specs.Passing.{clears, clearing_rows};

use crate::accepted::Accepted;
use crate::excerpts::rest_length;
use crate::frames::{Offer, View};
use answers::{BlockNumber, Refusal, RowNumber};
use digests::Digest;
use families::family::Family;
use sheets::{MAX_BYTES, Sheet};

impl Accepted<'_> {
    // Looks for the lowest row that holds a block and passes with the offered bytes in its place. Answers that row, and the length of its excerpt without the block.
    #[tactic(auto, using(crate::proofs::Counted::blocks_counted, crate::proofs::Vouched::no_row, crate::proofs::Vouched::lowest_row), unfolding(crate::specs::Calls::vouch_answer, crate::specs::Calls::vouch_before))]
    pub fn vouch<D: Digest, F: Family>(
        &self,
        sheet: &Sheet,
        family: &F,
        block: BlockNumber,
        offered: &[u8],
    ) -> Result<(RowNumber, usize), Refusal>
        ensures { result_map_both (λ r. (r.0.0, r.1)) (λ e. e) result ≡ vouch_answer (scheme D.digest D.KIND (F.shape family.now)) self.now.part.now (blocks_of sheet.now) block.0 offered.now }
    {
        if !self.has_scheme::<D, F>(family) {
            return Err(Refusal::OtherScheme);
        }
        if !self.has_count(sheet) {
            return Err(Refusal::OtherBlockCount);
        }
        // Only that the block is there matters, and not what its bytes are now.
        sheet.block(block)?;
        if offered.len() > MAX_BYTES {
            return Err(Refusal::TooLong);
        }
        let offer = Offer {
            number: block,
            bytes: offered,
        };
        let blocks = View {
            sheet,
            offer: Some(offer),
        };
        let Some(row) = self.lowest_row::<D, F>(family, block, &blocks) else {
            return Err(Refusal::NoRowVouches);
        };
        Ok((row, rest_length(family, row, block, sheet)))
    }

    // The lowest row that clears a block.
    #[tactic(auto, using(crate::proofs::LowestRows::lowest_first, crate::proofs::LowestRows::lowest_yes, crate::proofs::LowestRows::lowest_no, crate::proofs::LowestRows::lowest_end))]
    fn lowest_row<D: Digest, F: Family>(
        &self,
        family: &F,
        block: BlockNumber,
        blocks: &View,
    ) -> Option<RowNumber>
        requires placed { Placed blocks.now }
        requires scheme { same_scheme (scheme D.digest D.KIND (F.shape family.now)) self.now.part.now ≡ true }
        requires count { same_count (blocks_of blocks.now.sheet.now) self.now.part.now ≡ true }
        ensures { option_map (λ r. r.0) result ≡ slice_get (clearing_rows (scheme D.digest D.KIND (F.shape family.now)) self.now.part.now (viewed blocks.now) block.0) 0 }
    {
        for row in 1..=family.row_count() {
            let row = RowNumber(row);
            if self.clears::<D, F>(family, row, block, blocks) {
                return Some(row);
            }
        }
        None
    }

    // Whether a row clears a block: it holds it, and passes. It is digested only if it holds it.
    #[tactic(auto, using(crate::proofs::Counted::blocks_counted, crate::proofs::Counted::rows_same))]
    fn clears<D: Digest, F: Family>(
        &self,
        family: &F,
        row: RowNumber,
        block: BlockNumber,
        blocks: &View,
    ) -> bool
        requires placed { Placed blocks.now }
        requires scheme { same_scheme (scheme D.digest D.KIND (F.shape family.now)) self.now.part.now ≡ true }
        requires count { same_count (blocks_of blocks.now.sheet.now) self.now.part.now ≡ true }
        requires row { (1 ≤ row.0) × (row.0 ≤ (F.shape family.now).rows) }
        ensures { result ≡ clears (scheme D.digest D.KIND (F.shape family.now)) self.now.part.now (viewed blocks.now) block.0 row.0 }
    {
        family.holds(row, block) && self.passes::<D, F>(family, row, blocks)
    }
}
