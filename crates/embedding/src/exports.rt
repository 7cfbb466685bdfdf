// What C calls. A slice is a pointer and a length there, and `alloc` no parameter at all. Each answers a status: 0, the number of a refusal, or 255 where memory did not suffice.
ghost use Rattle.std.specs.Prelude.{◌≡◌, [], length};
ghost use Rattle.std.specs.Result.{result_map_both};
ghost use Rattle.files.specs.File.{unpack_answer};
ghost use Rattle.seals.specs.Calls.{lent_after};
ghost use Rattle.embedding.specs.Calls.{seal_text, pack_text, check_file, named_blocks, vouch_file, excerpt_file, confirm_part};
ghost use Rattle.embedding.specs.Status.{status_of, set_by, counted_by, Tells, Becomes};

use crate::call::{check, confirm, excerpt, vouch};
use crate::packing::{pack, seal_text, unpack};
use crate::status::{status_of, suspects_of};
use answers::{BlockNumber, RowNumber};
use std::alloc::Global;

const DONE: u8 = 0;

// Seals the lines of a text as a file. Who calls gives no two texts the same number of a key.
#[unsafe(no_mangle)]
pub extern "C" fn nazkoiber_seal(
    alloc: Global,
    text: &[u8],
    digest: u8,
    changes: u16,
    secret: &[u8],
    name: &[u8],
    number: u32,
    out: &mut [u8],
    size: &mut usize,
) -> u8
    ensures status { Tells result (seal_text text.now digest changes secret.now name.now number (length out.old)) }
    ensures file { Becomes result (lent_after (seal_text text.now digest changes secret.now name.now number (length out.old)) out.old) out.old out.new }
    ensures size { Becomes result (set_by length (seal_text text.now digest changes secret.now name.now number (length out.old)) size.old) size.old size.new }
{
    match seal_text(alloc, text, digest, changes, secret, name, number, out) {
        Ok(written) => {
            *size = written;
            DONE
        }
        Err(stop) => status_of(stop),
    }
}

// Packs the lines of a text and a seal part as a file.
#[unsafe(no_mangle)]
pub extern "C" fn nazkoiber_pack(
    alloc: Global,
    text: &[u8],
    part: &[u8],
    out: &mut [u8],
    size: &mut usize,
) -> u8
    ensures status { Tells result (pack_text text.now part.now (length out.old)) }
    ensures file { Becomes result (lent_after (pack_text text.now part.now (length out.old)) out.old) out.old out.new }
    ensures size { Becomes result (set_by length (pack_text text.now part.now (length out.old)) size.old) size.old size.new }
{
    match pack(alloc, text, part, out) {
        Ok(written) => {
            *size = written;
            DONE
        }
        Err(stop) => status_of(stop),
    }
}

// Tells whether this is a sealed file, and where its seal part stands.
#[unsafe(no_mangle)]
pub extern "C" fn nazkoiber_unpack(
    alloc: Global,
    file: &[u8],
    place: &mut usize,
    size: &mut usize,
) -> u8
    ensures status { Tells result (unpack_answer [] file.now) }
    ensures place { Becomes result (set_by (λ r. r.0) (unpack_answer [] file.now) place.old) place.old place.new }
    ensures size { Becomes result (set_by (λ r. r.1) (unpack_answer [] file.now) size.old) size.old size.new }
{
    match unpack(alloc, file) {
        Ok((start, length)) => {
            *place = start;
            *size = length;
            DONE
        }
        Err(stop) => status_of(stop),
    }
}

// Names the changed blocks of a file.
#[unsafe(no_mangle)]
pub extern "C" fn nazkoiber_check(
    alloc: Global,
    file: &[u8],
    digest: u8,
    secret: &[u8],
    list: &mut [u16],
    count: &mut usize,
    number: &mut u32,
) -> u8
    ensures status { Tells result (check_file file.now digest secret.now (length list.old)) }
    ensures list { Becomes result (lent_after (named_blocks (check_file file.now digest secret.now (length list.old))) list.old) list.old list.new }
    ensures count { Becomes result (counted_by (λ r. length r.0) (check_file file.now digest secret.now (length list.old)) count.old) count.old count.new }
    ensures number { Becomes result (set_by (λ r. r.1) (check_file file.now digest secret.now (length list.old)) number.old) number.old number.new }
{
    match check(alloc, file, digest, secret, list) {
        Ok((named, sealed)) => {
            *count = named;
            *number = sealed;
            DONE
        }
        Err(stop) => {
            if let Some(suspects) = suspects_of(stop) {
                *count = usize::from(suspects);
            }
            status_of(stop)
        }
    }
}

// Looks for a row of a file by which bytes offered for a block can be told to be the sealed ones.
#[unsafe(no_mangle)]
pub extern "C" fn nazkoiber_vouch(
    alloc: Global,
    file: &[u8],
    digest: u8,
    secret: &[u8],
    block: u16,
    offered: &[u8],
    row: &mut u16,
    size: &mut usize,
) -> u8
    ensures status { Tells result (vouch_file file.now digest secret.now block offered.now) }
    ensures row { Becomes result (set_by (λ r. r.0) (vouch_file file.now digest secret.now block offered.now) row.old) row.old row.new }
    ensures size { Becomes result (set_by (λ r. r.1) (vouch_file file.now digest secret.now block offered.now) size.old) size.old size.new }
{
    match vouch(alloc, file, digest, secret, BlockNumber(block), offered) {
        Ok((found, length)) => {
            *row = found.0;
            *size = length;
            DONE
        }
        Err(stop) => status_of(stop),
    }
}

// Writes a row's other blocks.
#[unsafe(no_mangle)]
pub extern "C" fn nazkoiber_excerpt(
    alloc: Global,
    file: &[u8],
    digest: u8,
    secret: &[u8],
    block: u16,
    row: u16,
    out: &mut [u8],
    size: &mut usize,
) -> u8
    ensures status { Tells result (excerpt_file file.now digest secret.now block row (length out.old)) }
    ensures excerpt { Becomes result (lent_after (excerpt_file file.now digest secret.now block row (length out.old)) out.old) out.old out.new }
    ensures size { Becomes result (set_by length (excerpt_file file.now digest secret.now block row (length out.old)) size.old) size.old size.new }
{
    let (block, row) = (BlockNumber(block), RowNumber(row));
    match excerpt(alloc, file, digest, secret, block, row, out) {
        Ok(written) => {
            *size = written;
            DONE
        }
        Err(stop) => status_of(stop),
    }
}

// Tells by a seal part and an excerpt alone whether offered bytes are the sealed ones. It needs no memory.
#[unsafe(no_mangle)]
pub extern "C" fn nazkoiber_confirm(
    part: &[u8],
    digest: u8,
    secret: &[u8],
    block: u16,
    row: u16,
    offered: &[u8],
    excerpt: &[u8],
) -> u8
    ensures { result ≡ status_of (confirm_part part.now digest secret.now block row offered.now excerpt.now) }
{
    let (block, row) = (BlockNumber(block), RowNumber(row));
    match confirm(part, digest, secret, block, row, offered, excerpt) {
        Ok(()) => DONE,
        Err(refusal) => refusal.number(),
    }
}
