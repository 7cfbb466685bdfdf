// Naming the suspects: the blocks in no row that passes.
ghost use Rattle.std.specs.Prelude.{◌≡◌, ℕ, ◌≤◌, true, ◌++◌, ◌||◌, length, drop};
ghost use Rattle.std.specs.Result.{result_map_both};
ghost use Rattle.sheets.specs.Blocks.{blocks_of};
ghost use Rattle.seals.specs.Scheme.{scheme};
ghost use Rattle.seals.specs.Calls.{same_scheme, same_count, suspects, check_answer, lent_after};
ghost use Rattle.seals.specs.Cleared.{is_cleared, uncleared};
ghost use Rattle.seals.specs.Passing.{clears, some_clears};

use crate::accepted::Accepted;
use crate::frames::View;
use answers::{Refusal, RowNumber};
use digests::Digest;
use families::family::Family;
use families::row::row_blocks;
use sheets::{MAX_BLOCKS, Sheet};

impl Accepted<'_> {
    // Names the suspects: the blocks in no row that passes. Writes them, rising, to the front of the list, and answers their count.
    #[tactic(auto, using(crate::proofs::Counted::blocks_few, crate::proofs::Uncleared::uncleared_bound), unfolding(crate::specs::Calls::check_answer, crate::specs::Calls::check_before))]
    pub fn check<D: Digest, F: Family>(
        &self,
        sheet: &Sheet,
        family: &F,
        list: &mut [u16],
    ) -> Result<usize, Refusal>
        ensures answer { result ≡ result_map_both length (λ e. e) (check_answer (scheme D.digest D.KIND (F.shape family.now)) self.now.part.now (blocks_of sheet.now) (length list.old)) }
        ensures list { list.new ≡ lent_after (check_answer (scheme D.digest D.KIND (F.shape family.now)) self.now.part.now (blocks_of sheet.now) (length list.old)) list.old }
    {
        if !self.has_scheme::<D, F>(family) {
            return Err(Refusal::OtherScheme);
        }
        if !self.has_count(sheet) {
            return Err(Refusal::OtherBlockCount);
        }
        let (n, d) = (family.block_count(), family.strength());
        if list.len() < usize::from(d.min(n)) {
            return Err(Refusal::NoRoom);
        }
        let cleared = self.cleared_blocks::<D, F>(sheet, family);
        // Counted before any is written: a refusal leaves the list as it was.
        let count = count_uncleared(&cleared, n);
        if count > d {
            return Err(Refusal::TooManySuspects(count));
        }
        write_uncleared(&cleared, n, list);
        Ok(usize::from(count))
    }

    // A flag for each block: no suspect has one. No row is digested where the whole agrees.
    #[tactic(auto, using(crate::proofs::Suspected::none_suspected))]
    fn cleared_blocks<D: Digest, F: Family>(&self, sheet: &Sheet, family: &F) -> [bool; MAX_BLOCKS]
        requires scheme { same_scheme (scheme D.digest D.KIND (F.shape family.now)) self.now.part.now ≡ true }
        requires count { same_count (blocks_of sheet.now) self.now.part.now ≡ true }
        ensures { uncleared result (F.shape family.now).blocks ≡ suspects (scheme D.digest D.KIND (F.shape family.now)) self.now.part.now (blocks_of sheet.now) }
    {
        if self.agrees::<D, F>(family, sheet) {
            return [true; MAX_BLOCKS];
        }
        self.cleared_by_rows::<D, F>(sheet, family)
    }

    // A block has a flag exactly if a row holds it and passes.
    fn cleared_by_rows<D: Digest, F: Family>(&self, sheet: &Sheet, family: &F) -> [bool; MAX_BLOCKS]
        requires scheme { same_scheme (scheme D.digest D.KIND (F.shape family.now)) self.now.part.now ≡ true }
        requires count { same_count (blocks_of sheet.now) self.now.part.now ≡ true }
        ensures { (j : ℕ) → 1 ≤ j → is_cleared result j ≡ some_clears (scheme D.digest D.KIND (F.shape family.now)) self.now.part.now (blocks_of sheet.now) j }
    {
        let mut cleared = [false; MAX_BLOCKS];
        for row in 1..=family.row_count() {
            self.clear_if_passing::<D, F>(sheet, family, RowNumber(row), &mut cleared);
        }
        cleared
    }

    // Clears the blocks of a row, if it passes.
    #[tactic(auto, using(crate::proofs::Counted::blocks_counted, crate::proofs::Counted::rows_same))]
    fn clear_if_passing<D: Digest, F: Family>(
        &self,
        sheet: &Sheet,
        family: &F,
        row: RowNumber,
        cleared: &mut [bool; MAX_BLOCKS],
    )
        requires scheme { same_scheme (scheme D.digest D.KIND (F.shape family.now)) self.now.part.now ≡ true }
        requires count { same_count (blocks_of sheet.now) self.now.part.now ≡ true }
        requires row { (1 ≤ row.0) × (row.0 ≤ (F.shape family.now).rows) }
        ensures { (j : ℕ) → 1 ≤ j → is_cleared cleared.new j ≡ (is_cleared cleared.old j || clears (scheme D.digest D.KIND (F.shape family.now)) self.now.part.now (blocks_of sheet.now) j row.0) }
    {
        let blocks = View { sheet, offer: None };
        if self.passes::<D, F>(family, row, &blocks) {
            clear_row(family, row, cleared);
        }
    }
}

// Clears the blocks of a row.
fn clear_row<F: Family>(family: &F, row: RowNumber, cleared: &mut [bool; MAX_BLOCKS])
    ensures { (j : ℕ) → 1 ≤ j → is_cleared cleared.new j ≡ (is_cleared cleared.old j || (F.shape family.now).holds row.0 j) }
{
    for number in row_blocks(family, row) {
        cleared[usize::from(number.0) - 1] = true;
    }
}

// How many of n blocks are not cleared.
#[tactic(auto, using(crate::proofs::Uncleared::counted_none, crate::proofs::Uncleared::counted_yes, crate::proofs::Uncleared::counted_no))]
fn count_uncleared(cleared: &[bool; MAX_BLOCKS], n: u16) -> u16
    requires { n ≤ 512 }
    ensures { result ≡ length (uncleared cleared.now n) }
{
    let mut count = 0;
    for index in 0..n {
        if !cleared[usize::from(index)] {
            count += 1;
        }
    }
    count
}

// Writes their numbers, rising, to the front of a list.
#[tactic(auto, using(crate::proofs::Uncleared::counted_none, crate::proofs::Uncleared::written_none))]
fn write_uncleared(cleared: &[bool; MAX_BLOCKS], n: u16, list: &mut [u16])
    requires all { n ≤ 512 }
    requires room { length (uncleared cleared.now n) ≤ length list.old }
    ensures { list.new ≡ uncleared cleared.now n ++ drop (length (uncleared cleared.now n)) list.old }
{
    let mut count = 0;
    for index in 0..n {
        if !cleared[usize::from(index)] {
            list[count] = index + 1;
            count += 1;
        }
    }
}
