// The calls that change a sheet. Each first decides its answer, cause by cause, and changes the sheet only where that is good.
ghost use Rattle.std.specs.Prelude.{◌≡◌, ◌+◌, ◌-◌, ◌≤◌, true, not, ◌&&◌, [], ◌∷◌, ◌++◌, map, length, take, drop, is_ok, vec_len, vec_capacity, OnErr, ◌==◌, slice_index, slice_set, EachIndex};
ghost use Rattle.sheets.specs.Blocks.{blocks_of, Stands};
ghost use Rattle.sheets.specs.Calls.{text_lines, with_block, cut_answer, add_answer, rewrite_answer, after};
ghost use Rattle.sheets.specs.Table.{max_bytes, line_ends};

use super::{Place, Sheet};
use crate::{MAX_BLOCKS, MAX_BYTES};
use answers::{BlockNumber, Refusal};
use std::ops::Range;

impl Sheet {
    // Fills an empty sheet from a text: each line with its byte 0A is a block, and so is a last piece without one. Answers the block count.
    pub fn cut(&mut self, text: &[u8]) -> Result<u16, Refusal>
        ensures answer { result ≡ cut_answer (blocks_of self.old) text.now }
        ensures blocks { blocks_of self.new ≡ after result (text_lines text.now) (blocks_of self.old) }
        ensures kept { OnErr result (self.new ≡ self.old) }
    {
        let count = self.cut_count(text)?;
        self.fill(text);
        Ok(count)
    }

    // Appends one block, and answers its number.
    pub fn add(&mut self, bytes: &[u8]) -> Result<BlockNumber, Refusal>
        ensures answer { result ≡ add_answer (blocks_of self.old) bytes.now }
        ensures blocks { blocks_of self.new ≡ after result (blocks_of self.old ++ bytes.now ∷ []) (blocks_of self.old) }
        ensures kept { OnErr result (self.new ≡ self.old) }
    {
        let number = self.next_number(bytes)?;
        self.append(bytes);
        Ok(number)
    }

    // Gives a block other bytes, and answers the sheet's new total.
    pub fn rewrite(&mut self, number: BlockNumber, bytes: &[u8]) -> Result<usize, Refusal>
        ensures answer { result ≡ rewrite_answer (blocks_of self.old) number.0 bytes.now }
        ensures blocks { blocks_of self.new ≡ after result (with_block (blocks_of self.old) number.0 bytes.now) (blocks_of self.old) }
        ensures kept { OnErr result (self.new ≡ self.old) }
    {
        let place = self.place(number)?;
        let total = self.total_with(&place, bytes)?;
        self.put(place, bytes);
        Ok(total)
    }

    fn cut_count(&self, text: &[u8]) -> Result<u16, Refusal>
        ensures { result ≡ cut_answer (blocks_of self.now) text.now }
    {
        if !self.is_empty() {
            return Err(Refusal::SheetNotEmpty);
        }
        if text.is_empty() {
            return Err(Refusal::EmptyText);
        }
        if text.len() > MAX_BYTES {
            return Err(Refusal::TooLong);
        }
        let count = count_lines(text);
        if count > MAX_BLOCKS {
            return Err(Refusal::TooManyLines);
        }
        Ok(count as u16)
    }

    fn next_number(&self, bytes: &[u8]) -> Result<BlockNumber, Refusal>
        ensures { result ≡ add_answer (blocks_of self.now) bytes.now }
    {
        if bytes.len() > MAX_BYTES {
            return Err(Refusal::TooLong);
        }
        let count = self.ends().len();
        let total = self.bytes().len() + bytes.len();
        if count >= MAX_BLOCKS || total > MAX_BYTES {
            return Err(Refusal::SheetFull);
        }
        Ok(BlockNumber(count as u16 + 1))
    }

    // The total once a block has other bytes.
    #[tactic(auto, using(crate::proofs::Known::there, crate::proofs::Known::total_after, crate::proofs::Tells::rewrite_full, crate::proofs::Tells::rewrite_ok))]
    fn total_with(&self, place: &Place, bytes: &[u8]) -> Result<usize, Refusal>
        requires { Stands self.now (place.now.index + 1) place.now.span.start place.now.span.end }
        ensures { result ≡ rewrite_answer (blocks_of self.now) (place.now.index + 1) bytes.now }
    {
        if bytes.len() > MAX_BYTES {
            return Err(Refusal::TooLong);
        }
        let total = self.bytes().len() - place.span.len() + bytes.len();
        if total > MAX_BYTES {
            return Err(Refusal::SheetFull);
        }
        Ok(total)
    }

    // Neither this nor `append` can want memory: the room is reserved.
    #[tactic(auto, using(crate::proofs::Tells::cut_allows, crate::proofs::Known::none_held, crate::proofs::Known::count_is, crate::proofs::Lines::length_lines))]
    fn fill(&mut self, text: &[u8])
        requires { is_ok (cut_answer (blocks_of self.old) text.now) ≡ true }
        ensures { blocks_of self.new ≡ text_lines text.now }
    {
        self.bytes.extend_from_slice(text).unwrap();
        push_line_ends(&mut self.ends, text);
    }

    #[tactic(auto, using(crate::proofs::Tells::add_allows, crate::proofs::Known::count_is, crate::proofs::Known::size_is))]
    fn append(&mut self, bytes: &[u8])
        requires { is_ok (add_answer (blocks_of self.old) bytes.now) ≡ true }
        ensures { blocks_of self.new ≡ blocks_of self.old ++ bytes.now ∷ [] }
    {
        self.bytes.extend_from_slice(bytes).unwrap();
        self.ends.push_reserved(self.bytes.len() as u16);
    }

    #[tactic(auto, using(crate::proofs::Known::short, crate::proofs::Known::room_after, crate::proofs::Known::size_is))]
    fn put(&mut self, place: Place, bytes: &[u8])
        requires stands { Stands self.old (place.index + 1) place.span.start place.span.end }
        requires fits { is_ok (rewrite_answer (blocks_of self.old) (place.index + 1) bytes.now) ≡ true }
        ensures { blocks_of self.new ≡ slice_set (blocks_of self.old) place.index bytes.now }
    {
        move_ends(&mut self.ends[place.index..], place.span.len(), bytes.len());
        replace(&mut self.bytes, place.span, bytes);
    }
}

fn count_lines(text: &[u8]) -> usize
    ensures { result ≡ length (text_lines text.now) }
{
    // A sum over all bytes takes several at once, and a `count` behind a `filter` one by one.
    let ended: usize = text.iter().map(|byte| usize::from(*byte == b'\n')).sum();
    ended + usize::from(ends_open(text))
}

fn push_line_ends(ends: &mut Vec<u16>, text: &[u8])
    requires short { length text.now ≤ max_bytes }
    requires room { vec_len ends.old + length (line_ends 0 text.now) ≤ vec_capacity ends.old }
    ensures items { ends.new.items ≡ ends.old.items ++ line_ends 0 text.now }
    ensures capacity { vec_capacity ends.new ≡ vec_capacity ends.old }
{
    for (index, byte) in text.iter().enumerate() {
        if *byte == b'\n' {
            ends.push_reserved((index + 1) as u16);
        }
    }
    if ends_open(text) {
        ends.push_reserved(text.len() as u16);
    }
}

// Whether the last piece has no 0A.
fn ends_open(text: &[u8]) -> bool
    ensures { result ≡ (not (length text.now == 0) && not (slice_index text.now (length text.now - 1) == 10)) }
{
    text.last().is_some_and(|byte| *byte != b'\n')
}

// Puts other bytes in place of those of a span: the old bytes turn to the end and are cut off, and the new ones turn from there to their place. No room beyond the result's is needed, as `splice` would need it.
fn replace(all: &mut Vec<u8>, span: Range<usize>, new: &[u8])
    requires forward { span.start ≤ span.end }
    requires inside { span.end ≤ vec_len all.old }
    requires fits { vec_len all.old - (span.end - span.start) + length new.now ≤ max_bytes }
    requires room { max_bytes ≤ vec_capacity all.old }
    ensures items { all.new.items ≡ take span.start all.old.items ++ (new.now ++ drop span.end all.old.items) }
    ensures len { vec_len all.new ≡ vec_len all.old - (span.end - span.start) + length new.now }
    ensures capacity { max_bytes ≤ vec_capacity all.new }
{
    let kept = all.len() - span.len();
    all[span.start..].rotate_left(span.len());
    all.truncate(kept);
    all.extend_from_slice(new).unwrap();
    all[span.start..].rotate_right(new.len());
}

// Moves ends by so much back and then by so much on.
fn move_ends(ends: &mut [u16], back: usize, on: usize)
    requires inside { EachIndex ends.old (λ k. back ≤ slice_index ends.old k) }
    requires fits { EachIndex ends.old (λ k. slice_index ends.old k - back + on ≤ max_bytes) }
    ensures { ends.new ≡ map (λ end. end - back + on) ends.old }
{
    for end in ends.iter_mut() {
        *end = (usize::from(*end) - back + on) as u16;
    }
}
