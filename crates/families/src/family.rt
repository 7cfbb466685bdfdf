// What a family of rows is.
ghost use Rattle.std.specs.Prelude.{◌≡◌};
ghost use Rattle.families.specs.Family.{TellsApart};
ghost use Rattle.families.specs.Shape.{Shape, Lawful, next_held};

use answers::{BlockNumber, RowNumber};

pub trait Family {
    ghost shape: { Self → Shape };

    // The number by which a seal names the kind. No enum: a family of another crate brings a number of its own.
    fn kind_byte(&self) -> u8
        ensures { result ≡ (shape self.now).kind };

    // q and k are 0 where the kind has none, as a seal writes them.
    fn q(&self) -> u8
        ensures { result ≡ (shape self.now).q };

    fn k(&self) -> u8
        ensures { result ≡ (shape self.now).k };

    fn block_count(&self) -> u16
        ensures { result ≡ (shape self.now).blocks };

    fn row_count(&self) -> u16
        ensures { result ≡ (shape self.now).rows };

    // How many changed blocks the rows tell apart.
    fn strength(&self) -> u16
        ensures { result ≡ (shape self.now).strength };

    fn holds(&self, row: RowNumber, block: BlockNumber) -> bool
        ensures { result ≡ (shape self.now).holds row.0 block.0 };

    // The lowest block above another that a row holds: so a row's blocks are visited one after the other, and not all n asked for each row. `after` is 0 before the first.
    fn next_block(&self, row: RowNumber, after: BlockNumber) -> Option<BlockNumber>
        ensures { result ≡ next_held (shape self.now) row.0 after.0 }
    {
        for below in after.0..self.block_count() {
            let block = BlockNumber(below + 1);
            if self.holds(row, block) {
                return Some(block);
            }
        }
        None
    }

    ghost lawful: { (f : Self) → Lawful (shape f) };
}

// Whatever the family: no two different sets of at most d blocks touch the same rows.
pub fn tells_apart<F: Family>(family: &F) -> u16
    ensures strength { result ≡ (F.shape family.now).strength }
    ensures apart { TellsApart (F.shape family.now).blocks (F.shape family.now).rows (F.shape family.now).strength (F.shape family.now).holds }
{
    family.strength()
}
