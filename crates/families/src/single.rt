// Kind 1: row i holds block i only.
ghost use Rattle.std.specs.Prelude.{◌≡◌, ◌≤◌};
ghost use Rattle.std.specs.Result.{result_map_both};
ghost use Rattle.families.specs.Making.{count_answer, single_answer};
ghost use Rattle.families.specs.Single.{single_holds, single_shape};
ghost use Rattle.families.specs.Lawful.{single_lawful};

use crate::blocks::{BlockCount, is_within};
use crate::family::Family;
use answers::{BlockNumber, Refusal, RowNumber};

#[derive(Clone, Copy)]
pub struct Single {
    blocks: BlockCount<512>,
}

impl Single {
    // As `Plane::new`: what is left beside the count makes a type of its own.
    pub fn new(n: u16) -> Result<Single, Refusal>
        ensures count { result_map_both (λ f. f.blocks.n) (λ e. e) result ≡ count_answer 512 n }
        ensures answer { result_map_both (λ f. single_shape f.blocks.n) (λ e. e) result ≡ single_answer n }
    {
        let blocks = BlockCount::new(n)?;
        Ok(Single { blocks })
    }
}

impl Family for Single {
    ghost shape = { λ f. record { kind = 1; q = 0; k = 0; blocks = f.blocks.n; rows = f.blocks.n; strength = f.blocks.n; holds = single_holds f.blocks.n } };

    ghost lawful = { λ f. single_lawful f.blocks.n f.blocks.some f.blocks.most };

    fn kind_byte(&self) -> u8 {
        1
    }

    fn q(&self) -> u8 {
        0
    }

    fn k(&self) -> u8 {
        0
    }

    fn block_count(&self) -> u16 {
        self.blocks.get()
    }

    fn row_count(&self) -> u16 {
        self.blocks.get()
    }

    fn strength(&self) -> u16 {
        self.blocks.get()
    }

    // From `after` on and not from 1, so no `is_within`.
    fn next_block(&self, row: RowNumber, after: BlockNumber) -> Option<BlockNumber> {
        if row.0 <= after.0 {
            return None;
        }
        if row.0 > self.blocks.get() {
            return None;
        }
        Some(BlockNumber(row.0))
    }

    fn holds(&self, row: RowNumber, block: BlockNumber) -> bool {
        is_within(self.blocks.get(), row.0) && row.0 == block.0
    }
}
