// Counts of blocks, and the numbers that they allow.
ghost use Rattle.std.specs.Prelude.{◌≡◌, ◌≤◌};
ghost use Rattle.std.specs.Result.{result_map_both};
ghost use Rattle.families.specs.Making.{count_answer};
ghost use Rattle.families.specs.Numbers.{within};

use answers::Refusal;

// How many blocks a family has, of a kind that holds at most so many.
#[derive(Clone, Copy)]
pub(crate) struct BlockCount<const MOST: u16> {
    n: u16,
    ghost some: { 1 ≤ n },
    ghost most: { n ≤ MOST },
}

impl<const MOST: u16> BlockCount<MOST> {
    // Each kind is made through this. What is left of their `new`s makes each its own type.
    pub(crate) fn new(n: u16) -> Result<BlockCount<MOST>, Refusal>
        ensures { result_map_both (λ c. c.n) (λ e. e) result ≡ count_answer MOST n }
    {
        if n == 0 || n > MOST {
            return Err(Refusal::BadBlockCount);
        }
        Ok(BlockCount { n })
    }

    pub(crate) fn get(self) -> u16
        ensures value { result ≡ self.entry.n }
        ensures range { (1 ≤ result) × (result ≤ MOST) }
    {
        self.n
    }
}

// Whether a row or a block has a number from 1 up to a count. No `contains` of a range, which measured slower. Each `holds` asks it: one `holds` for all kinds would need a second question beside it, that asks for numbers within.
pub(crate) fn is_within(count: u16, number: u16) -> bool
    ensures { result ≡ within count number }
{
    1 <= number && number <= count
}
