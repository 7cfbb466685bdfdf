// A new sheet, and what can be read of one.
ghost use Rattle.std.specs.Prelude.{◌≡◌, ◌+◌, ◌≤◌, [], length, IfOk, Err, MatchResult, ◌==◌};
ghost use Rattle.std.specs.Result.{result_map_both};
ghost use Rattle.sheets.specs.Blocks.{blocks_of, Stands};
ghost use Rattle.sheets.specs.Calls.{total_bytes, block_answer};
ghost use Rattle.sheets.specs.Table.{max_blocks, max_bytes};

use super::{Place, Sheet};
use crate::{MAX_BLOCKS, MAX_BYTES};
use answers::{BlockNumber, Refusal};
use std::alloc::{AllocError, Global};

impl Sheet {
    // A sheet with no block. It takes all its memory here.
    pub fn new(alloc: Global) -> Result<Sheet, AllocError>
        ensures { IfOk result (λ s. blocks_of s ≡ []) }
    {
        let bytes = Vec::with_capacity(alloc, MAX_BYTES)?;
        let ends = Vec::with_capacity(alloc, MAX_BLOCKS)?;
        Ok(Sheet { bytes, ends })
    }

    pub fn block_count(&self) -> u16
        ensures value { result ≡ length (blocks_of self.now) }
        ensures bound { result ≤ max_blocks }
    {
        self.ends().len() as u16
    }

    // The bytes of all blocks together.
    pub fn total(&self) -> usize
        ensures value { result ≡ total_bytes (blocks_of self.now) }
        ensures bound { result ≤ max_bytes }
    {
        self.bytes().len()
    }

    pub fn is_empty(&self) -> bool
        ensures { result ≡ (length (blocks_of self.now) == 0) }
    {
        self.ends().is_empty()
    }

    pub fn block(&self, number: BlockNumber) -> Result<&[u8], Refusal>
        ensures { result_map_both (λ x. x.now) (λ e. e) result ≡ block_answer (blocks_of self.now) number.0 }
    {
        let place = self.place(number)?;
        Ok(&self.bytes()[place.span])
    }

    // The table: an end for each block.
    #[tactic(auto, using(crate::proofs::Known::count_is))]
    pub(super) fn ends(&self) -> &[u16]
        ensures items { result.now ≡ self.now.ends.items }
        ensures count { length result.now ≡ length (blocks_of self.now) }
        ensures bound { length result.now ≤ max_blocks }
    {
        &self.ends
    }

    // All blocks in one run.
    #[tactic(auto, using(crate::proofs::Known::size_is))]
    pub(super) fn bytes(&self) -> &[u8]
        ensures items { result.now ≡ self.now.bytes.items }
        ensures total { length result.now ≡ total_bytes (blocks_of self.now) }
        ensures bound { length result.now ≤ max_bytes }
    {
        &self.bytes
    }

    // A block starts where the one before it ends.
    pub(super) fn place(&self, number: BlockNumber) -> Result<Place, Refusal>
        ensures { MatchResult result
            (λ p. (p.index + 1 ≡ number.0) × Stands self.now number.0 p.span.start p.span.end)
            (λ e. Err e ≡ block_answer (blocks_of self.now) number.0) }
    {
        let ends = self.ends();
        let Some(index) = number.index() else {
            return Err(Refusal::NoSuchBlock);
        };
        if index >= ends.len() {
            return Err(Refusal::NoSuchBlock);
        }
        let start = if index == 0 { 0 } else { ends[index - 1] };
        let span = usize::from(start)..usize::from(ends[index]);
        Ok(Place { index, span })
    }
}
