// Packing a sheet and its seal part into a file.
ghost use Rattle.std.specs.Prelude.{◌≡◌, ◌+◌, ◌<◌, ◌≤◌, true, ◌++◌, length, take, drop, Ok, Err, IfOk, MatchResult};
ghost use Rattle.std.specs.Result.{result_map_both};
ghost use Rattle.sheets.specs.Blocks.{blocks_of};
ghost use Rattle.sheets.specs.Table.{max_blocks, max_bytes};
ghost use Rattle.seals.specs.Images.{framed};
ghost use Rattle.seals.specs.Part.{is_seal_part};
ghost use Rattle.seals.specs.Calls.{lent_after};
ghost use Rattle.files.specs.File.{frames, file_of, pack_answer};
ghost use Rattle.files.specs.RoundTrip.{Unpacks};

use crate::trailer::{TRAILER, put_end};
use answers::{BlockNumber, Refusal};
use seals::{FRAME_HEAD, sealed_count, write_frame};
use sheets::Sheet;

// Writes a sheet's blocks framed, its seal part and a trailer to the front of the buffer, and answers their length. The signature is not looked at.
pub fn pack(sheet: &Sheet, part: &[u8], out: &mut [u8]) -> Result<usize, Refusal>
    ensures answer { result ≡ result_map_both length (λ e. e) (pack_answer (blocks_of sheet.now) part.now (length out.old)) }
    ensures buffer { out.new ≡ lent_after (pack_answer (blocks_of sheet.now) part.now (length out.old)) out.old }
    ensures unpacks { IfOk result (λ n. Unpacks (take n out.new) (blocks_of sheet.now) part.now) }
{
    let length = file_length(sheet, part, out.len())?;
    put_file(sheet, part, &mut out[..length]);
    Ok(length)
}

// The length of the file, if a sheet and a part can be packed.
#[tactic(auto, using(crate::proofs::Packed::file_size), unfolding(crate::specs::File::pack_answer, seals::specs::Calls::same_count))]
fn file_length(sheet: &Sheet, part: &[u8], room: usize) -> Result<usize, Refusal>
    ensures { MatchResult result
        (λ n. (pack_answer (blocks_of sheet.now) part.now room ≡ Ok (file_of (blocks_of sheet.now) part.now))
        × (n ≡ length (file_of (blocks_of sheet.now) part.now)) × (n ≤ room) × (is_seal_part part.now ≡ true))
        (λ e. pack_answer (blocks_of sheet.now) part.now room ≡ Err e) }
{
    if sheet.is_empty() {
        return Err(Refusal::SheetEmpty);
    }
    let count = sealed_count(part).ok_or(Refusal::Malformed)?;
    if sheet.block_count() != count {
        return Err(Refusal::OtherBlockCount);
    }
    let length = frames_length(sheet) + part.len() + TRAILER;
    if room < length {
        return Err(Refusal::NoRoom);
    }
    Ok(length)
}

// The length of all blocks, framed.
#[tactic(auto, using(crate::proofs::Packed::frames_size))]
fn frames_length(sheet: &Sheet) -> usize
    ensures value { result ≡ length (frames (blocks_of sheet.now)) }
    ensures bound { result ≤ 40960 }
{
    FRAME_HEAD * usize::from(sheet.block_count()) + sheet.total()
}

// The file, into a buffer of its length.
#[tactic(auto, using(crate::proofs::Packed::file_size, crate::proofs::Packed::part_small), unfolding(crate::specs::File::file_of))]
fn put_file(sheet: &Sheet, part: &[u8], out: &mut [u8])
    requires part { is_seal_part part.now ≡ true }
    requires room { length out.old ≡ length (file_of (blocks_of sheet.now) part.now) }
    ensures { out.new ≡ file_of (blocks_of sheet.now) part.now }
{
    let (blocks, end) = out.split_at_mut(frames_length(sheet));
    put_blocks(sheet, blocks);
    put_end(part, end);
}

// All blocks, framed, into a buffer of their length.
fn put_blocks(sheet: &Sheet, out: &mut [u8])
    requires { length out.old ≡ length (frames (blocks_of sheet.now)) }
    ensures { out.new ≡ frames (blocks_of sheet.now) }
{
    let mut place = 0;
    for (index, bytes) in sheet.blocks().enumerate() {
        place = put_block(out, place, index, bytes);
    }
}

// Writes one block, framed, at a place, and answers the place behind it. The block with index 0 has number 1.
#[tactic(auto, unfolding(seals::specs::Images::frame_fits))]
fn put_block(out: &mut [u8], place: usize, index: usize, bytes: &[u8]) -> usize
    requires number { index < max_blocks }
    requires short { length bytes.now ≤ max_bytes }
    requires room { place + 4 + length bytes.now ≤ length out.old }
    ensures place { result ≡ place + 4 + length bytes.now }
    ensures buffer { out.new ≡ take place out.old ++ (framed (index + 1) bytes.now ++ drop (place + 4 + length bytes.now) out.old) }
{
    write_frame(out, place, BlockNumber(index as u16 + 1), bytes).unwrap()
}
