// Kind 4: the lines of three points in the plane of nine.
ghost use Rattle.std.specs.Prelude.{◌≡◌, ◌≤◌, ◌||◌, ◌==◌, slice_index};
ghost use Rattle.std.specs.Result.{result_map_both};
ghost use Rattle.families.specs.Making.{count_answer, plane_answer};
ghost use Rattle.families.specs.Plane.{plane_held, plane_holds, plane_shape};
ghost use Rattle.families.specs.Lawful.{plane_lawful};

use crate::blocks::{BlockCount, is_within};
use crate::family::Family;
use answers::{BlockNumber, Refusal, RowNumber};

const ROWS: u16 = 9;

// The rows of blocks 1 to 12.
static LINES: [[u16; 3]; 12] = [
    [1, 2, 3],
    [4, 5, 6],
    [7, 8, 9],
    [1, 4, 7],
    [2, 5, 8],
    [3, 6, 9],
    [1, 5, 9],
    [2, 6, 7],
    [3, 4, 8],
    [1, 6, 8],
    [2, 4, 9],
    [3, 5, 7],
];

#[derive(Clone, Copy)]
pub struct Plane {
    blocks: BlockCount<12>,
}

impl Plane {
    // As `Single::new`: what is left beside the count makes a type of its own.
    pub fn new(n: u16) -> Result<Plane, Refusal>
        ensures count { result_map_both (λ f. f.blocks.n) (λ e. e) result ≡ count_answer 12 n }
        ensures answer { result_map_both (λ f. plane_shape f.blocks.n) (λ e. e) result ≡ plane_answer n }
    {
        let blocks = BlockCount::new(n)?;
        Ok(Plane { blocks })
    }
}

impl Family for Plane {
    ghost shape = { λ f. record { kind = 4; q = 0; k = 0; blocks = f.blocks.n; rows = 9; strength = 2; holds = plane_holds f.blocks.n } };

    ghost lawful = { λ f. plane_lawful f.blocks.n f.blocks.some f.blocks.most };

    fn kind_byte(&self) -> u8 {
        4
    }

    fn q(&self) -> u8 {
        0
    }

    fn k(&self) -> u8 {
        0
    }

    fn block_count(&self) -> u16 {
        self.blocks.get()
    }

    fn row_count(&self) -> u16 {
        ROWS
    }

    fn strength(&self) -> u16 {
        2
    }

    // The same tests as every kind's; `is_within` says why they stand in each.
    fn holds(&self, row: RowNumber, block: BlockNumber) -> bool {
        is_within(ROWS, row.0) && is_within(self.blocks.get(), block.0) && on_line(row, block)
    }
}

// No `index` of the block: it would be unwrapped at once. And no `contains`, which measured a quarter slower for three.
fn on_line(row: RowNumber, block: BlockNumber) -> bool
    requires { (1 ≤ block.0) × (block.0 ≤ 12) }
    ensures { result ≡ plane_held row.0 block.0 }
{
    let [first, second, third] = LINES[usize::from(block.0) - 1];
    row.0 == first || row.0 == second || row.0 == third
}
