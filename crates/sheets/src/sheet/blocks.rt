// The blocks of a sheet, one after another. A contract sees the iterator as the list of what it has left.
ghost use Rattle.std.specs.Prelude.{◌≡◌, ◌≤◌, length};
ghost use Rattle.std.specs.Iterator.{YieldsFirstRef, item_count};
ghost use Rattle.sheets.specs.Blocks.{blocks_of};
ghost use Rattle.sheets.specs.Table.{max_blocks};

use super::Sheet;
use std::iter::FusedIterator;
use std::marker::Model;

// What is left of a sheet: the bytes from `start` on, and the ends of the blocks in them.
#[derive(Drop)]
pub struct Blocks<'a> {
    start: u16,
    ends: &'a [u16],
    bytes: &'a [u8],
}

impl<'a> Model for Blocks<'a> {
    ghost use Rattle.std.specs.Prelude.{◌≡◌, ℕ, ◌+◌, true, List, length};
    ghost use Rattle.sheets.specs.Table.{pieces, rises};

    ghost Value = { List (List ℕ) };

    ghost view = { λ b. pieces b.start b.ends.now b.bytes.now };

    ghost invariant = { λ b. rises b.start b.ends.now (b.start + length b.bytes.now) ≡ true };
}

impl Sheet {
    // The blocks in order, the first with number 1.
    pub fn blocks(&self) -> Blocks<'_>
        ensures value { result ≡ blocks_of self.now }
        ensures bound { length result ≤ max_blocks }
    {
        Blocks {
            start: 0,
            ends: self.ends(),
            bytes: self.bytes(),
        }
    }
}

impl<'a> Iterator for Blocks<'a> {
    type Item = &'a [u8];

    ghost next_gives = { YieldsFirstRef (λ b. b) };

    ghost remaining = { item_count (λ b. b) };

    fn next(&mut self) -> Option<&'a [u8]> {
        let (end, ends) = self.ends.split_first()?;
        let (block, rest) = self.bytes.split_at(usize::from(*end - self.start));
        self.start = *end;
        self.ends = ends;
        self.bytes = rest;
        Some(block)
    }
}

impl FusedIterator for Blocks<'_> {}
