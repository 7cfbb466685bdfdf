// The blocks lie in one run of bytes, and a table has the place where each ends, so that a block is found at once and a rewrite moves only what stands behind it. All memory is reserved when a sheet is made: no later call needs more.
ghost use Rattle.std.specs.Prelude.{◌≡◌, ◌≤◌, true, vec_len, vec_capacity};
ghost use Rattle.sheets.specs.Table.{max_blocks, max_bytes, rises};

pub mod blocks;
pub mod edits;
pub mod reads;

use std::ops::Range;

// No `impl Model` as the list of blocks: the calls promise that a refusal leaves every field as it was, and a clause could not say that of a model.
// The two lists differ in length, and a `Vec` for each block would need memory in later calls.
#[derive(Drop)]
pub struct Sheet {
    bytes: Vec<u8>,
    ends: Vec<u16>,
    ghost room: { max_bytes ≤ vec_capacity bytes },
    ghost slots: { max_blocks ≤ vec_capacity ends },
    ghost filled: { vec_len bytes ≤ max_bytes },
    ghost counted: { vec_len ends ≤ max_blocks },
    ghost whole: { rises 0 ends.items (vec_len bytes) ≡ true },
}

// Where a block stands: its index in the table, and its bytes in the run.
#[derive(Drop)]
struct Place {
    index: usize,
    span: Range<usize>,
}
