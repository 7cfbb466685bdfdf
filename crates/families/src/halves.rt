// Kind 2: block j takes the j-th smallest t-bit number with ⌊t/2⌋ ones, and lies in the rows of its ones.
ghost use Rattle.std.specs.Prelude.{◌≡◌, ◌/◌, ◌^◌, ◌<◌, ◌≤◌};
ghost use Rattle.std.specs.Result.{result_map_both};
ghost use Rattle.families.specs.Halves.{half_ones, halves_held, halves_rows, halves_shape, Ranked};
ghost use Rattle.families.specs.Numbers.{count};
ghost use Rattle.families.specs.Making.{halves_answer};
ghost use Rattle.families.specs.Lawful.{halves_lawful};

use crate::blocks::{BlockCount, is_within};
use crate::family::Family;
use answers::{BlockNumber, Refusal, RowNumber};

// How many blocks t = 2, 3, .. rows take at most.
static LIMITS: [u16; 11] = [2, 3, 6, 10, 20, 35, 70, 126, 252, 462, 924];

#[derive(Clone, Copy)]
pub struct Halves {
    blocks: BlockCount<512>,
    t: u16,
    // The number that each block takes, so that none is worked out twice. An array beside the count: an `ArrayVec` is not `Copy`, as `Halves` is for its users.
    words: [u16; 512],
    ghost rows: { t ≡ halves_rows blocks.n },
    ghost ranked: { Ranked t blocks.n words },
}

impl Halves {
    pub fn new(n: u16) -> Result<Halves, Refusal>
        ensures { result_map_both (λ f. halves_shape f.blocks.n) (λ e. e) result ≡ halves_answer n }
    {
        let blocks = BlockCount::new(n)?;
        let t = rows_for(blocks.get());
        let words = rank_words(t, blocks.get());
        Ok(Halves { blocks, t, words })
    }
}

impl Family for Halves {
    ghost shape = { λ f. halves_shape f.blocks.n };

    ghost lawful = { λ f. halves_lawful f.blocks.n f.blocks.some f.blocks.most };

    fn kind_byte(&self) -> u8 {
        2
    }

    fn q(&self) -> u8 {
        0
    }

    fn k(&self) -> u8 {
        0
    }

    fn block_count(&self) -> u16 {
        self.blocks.get()
    }

    fn row_count(&self) -> u16 {
        self.t
    }

    fn strength(&self) -> u16 {
        1
    }

    // The same tests as every kind's; `is_within` says why they stand in each.
    fn holds(&self, row: RowNumber, block: BlockNumber) -> bool {
        is_within(self.t, row.0)
            && is_within(self.blocks.get(), block.0)
            && self.has_one(row, block)
    }
}

impl Halves {
    // Whether a block's number has a one at a row's bit. No `index` of the block: it would be unwrapped at once.
    fn has_one(&self, row: RowNumber, block: BlockNumber) -> bool
        requires { (1 ≤ row.0) × (row.0 ≤ self.now.t) × (1 ≤ block.0) × (block.0 ≤ self.now.blocks.n) }
        ensures { result ≡ halves_held (halves_rows self.now.blocks.n) row.0 block.0 }
    {
        (self.words[usize::from(block.0) - 1] >> (row.0 - 1)) % 2 == 1
    }
}

// The first t whose limit is at least n.
fn rows_for(n: u16) -> u16
    requires { n ≤ 512 }
    ensures value { result ≡ halves_rows n }
    ensures bound { result ≤ 12 }
{
    LIMITS.partition_point(|limit| *limit < n) as u16 + 2
}

// The first n numbers with ⌊t/2⌋ ones, of which there are as many.
fn rank_words(t: u16, n: u16) -> [u16; 512]
    requires { (t ≤ 12) × (n ≤ 512) × (n ≤ count (half_ones t) (2 ^ t)) }
    ensures { Ranked t n result }
{
    let mut words = [0; 512];
    // Counted by hand: the proof of a zip of the places with a filter over the numbers did not close.
    let mut found = 0;
    for word in 0..1 << t {
        if found < 512 && has_half(word, t) {
            words[found] = word;
            found += 1;
        }
    }
    words
}

// Whether ⌊t/2⌋ of a number's t bits are one.
fn has_half(word: u16, t: u16) -> bool
    requires { word < 2 ^ t }
    ensures { result ≡ half_ones t word }
{
    word.count_ones() == half(t)
}

// Of an odd t, the smaller half.
fn half(t: u16) -> u32
    ensures { result ≡ t / 2 }
{
    u32::from(t) / 2
}
