// The blocks of a row, one after another. A contract sees the iterator as the list of what it has left.
ghost use Rattle.std.specs.Prelude.{◌≡◌, map};
ghost use Rattle.std.specs.Iterator.{YieldsFirstBy, item_count};
ghost use Rattle.families.specs.Shape.{row_list};

use crate::family::Family;
use answers::{BlockNumber, RowNumber};
use std::iter::FusedIterator;
use std::marker::Model;

// What is left of a row: the blocks above `after`, which is 0 at first.
#[derive(Drop)]
pub struct RowBlocks<'a, F: Family> {
    family: &'a F,
    row: RowNumber,
    after: BlockNumber,
}

impl<'a, F: Family> Model for RowBlocks<'a, F> {
    ghost use Rattle.std.specs.Prelude.{ℕ, List};
    ghost use Rattle.families.specs.Shape.{held_after};

    ghost Value = { List ℕ };

    ghost view = { λ r. held_after (F.shape r.family.now) r.row.0 r.after.0 };
}

// The blocks that a row holds, rising.
pub fn row_blocks<F: Family>(family: &F, row: RowNumber) -> RowBlocks<'_, F>
    ensures { result ≡ row_list (F.shape family.now) row.0 }
{
    RowBlocks {
        family,
        row,
        after: BlockNumber(0),
    }
}

impl<'a, F: Family> Iterator for RowBlocks<'a, F> {
    type Item = BlockNumber;

    ghost next_gives = { YieldsFirstBy (λ b. b.0) (λ r. r) };

    ghost remaining = { item_count (λ r. r) };

    #[tactic(auto, using(crate::proofs::RowLemmas::none_held, crate::proofs::RowLemmas::some_held))]
    fn next(&mut self) -> Option<BlockNumber> {
        let block = self.family.next_block(self.row, self.after)?;
        self.after = block;
        Some(block)
    }
}

impl<'a, F: Family> FusedIterator for RowBlocks<'a, F> {}
