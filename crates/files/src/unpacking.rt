// Unpacking a file into an empty sheet.
ghost use Rattle.std.specs.Prelude.{◌≡◌, ◌+◌, ◌<◌, ◌≤◌, true, false, ◌&&◌, [], ◌∷◌, ◌++◌, length, MatchOption, OnErr, OnOk, ◌==◌, nat_le};
ghost use Rattle.sheets.specs.Blocks.{blocks_of};
ghost use Rattle.sheets.specs.Calls.{after, total_bytes};
ghost use Rattle.sheets.specs.Table.{max_blocks, max_bytes};
ghost use Rattle.seals.specs.Part.{part_blocks};
ghost use Rattle.files.specs.File.{is_file, is_frames, blocks_in, seal_of, frames_of, blocks_of_file, unpack_answer};
ghost use Rattle.files.specs.Frames.{has_frame, first_block, behind};
ghost use Rattle.files.specs.RoundTrip.{Packs};

use crate::trailer::split_file;
use answers::{BlockNumber, Refusal};
use seals::sealed_count;
use sheets::{MAX_BYTES, Sheet};

// Fills an empty sheet with a file's blocks, and answers the place and the length of the seal part. All is known of the file before the first block is added.
#[tactic(auto, using(crate::proofs::Written::packs_again, crate::proofs::Unpacked::file_seal, crate::proofs::Unpacked::file_count, crate::proofs::Unpacked::file_frames, crate::proofs::Unpacked::frames_long), unfolding(crate::specs::File::unpack_answer, crate::specs::File::blocks_of_file))]
pub fn unpack(sheet: &mut Sheet, file: &[u8]) -> Result<(usize, usize), Refusal>
    ensures answer { result ≡ unpack_answer (blocks_of sheet.old) file.now }
    ensures blocks { blocks_of sheet.new ≡ after result (blocks_of_file file.now) (blocks_of sheet.old) }
    ensures kept { OnErr result (sheet.new ≡ sheet.old) }
    ensures packs { OnOk result (Packs (blocks_of sheet.new) (seal_of file.now) file.now) }
{
    if !sheet.is_empty() {
        return Err(Refusal::SheetNotEmpty);
    }
    let (frames, part, count) = take_apart(file).ok_or(Refusal::Malformed)?;
    fill(sheet, count, frames);
    Ok((frames.len(), part.len()))
}

// The frames and the seal part of a file, and its count of blocks, if it is one.
#[tactic(auto, unfolding(crate::specs::File::is_file))]
fn take_apart(file: &[u8]) -> Option<(&[u8], &[u8], u16)>
    ensures { MatchOption result
        (is_file file.now ≡ false)
        (λ r. (is_file file.now ≡ true) × (r.0.now ≡ frames_of file.now) × (r.1.now ≡ seal_of file.now) × (r.2 ≡ part_blocks (seal_of file.now))) }
{
    let (frames, part) = split_file(file)?;
    let count = sealed_count(part)?;
    if !is_frames(count, frames) {
        return None;
    }
    Some((frames, part, count))
}

// The first block of some frames, which has this number, and what stands behind its frame.
#[tactic(auto, unfolding(crate::specs::Frames::has_frame, crate::specs::Frames::first_block, crate::specs::Frames::behind, seals::specs::Part::word))]
fn split_frame(number: BlockNumber, frames: &[u8]) -> Option<(&[u8], &[u8])>
    ensures { MatchOption result
        (has_frame number.0 frames.now ≡ false)
        (λ r. (has_frame number.0 frames.now ≡ true) × (r.0.now ≡ first_block frames.now) × (r.1.now ≡ behind frames.now)) }
{
    let [n1, n0, l1, l0, rest @ ..] = frames else {
        return None;
    };
    let length = usize::from(u16::from_be_bytes([*l1, *l0]));
    if u16::from_be_bytes([*n1, *n0]) != number.0 || length > MAX_BYTES || length > rest.len() {
        return None;
    }
    Some(rest.split_at(length))
}

// Whether a string is exactly the frames of blocks 1 to n, which a sheet has room for.
fn is_frames(count: u16, frames: &[u8]) -> bool
    ensures { result ≡ is_frames count frames.now }
{
    let Some((total, left)) = walk(count, frames) else {
        return false;
    };
    left.is_empty() && total <= MAX_BYTES
}

// Takes the frames of blocks 1 to n off a string. Answers how many bytes the blocks have together, and what stands behind the last frame.
fn walk(count: u16, frames: &[u8]) -> Option<(usize, &[u8])>
    ensures { MatchOption result
        (is_frames count frames.now ≡ false)
        (λ r. is_frames count frames.now ≡ (length r.1.now == 0 && nat_le r.0 max_bytes)) }
{
    let mut total = 0;
    let mut left = frames;
    for index in 0..count {
        let (block, behind) = split_frame(BlockNumber(index + 1), left)?;
        total += block.len();
        left = behind;
    }
    Some((total, left))
}

// Adds the blocks of frames to an empty sheet.
fn fill(sheet: &mut Sheet, count: u16, frames: &[u8])
    requires empty { length (blocks_of sheet.old) ≡ 0 }
    requires count { count ≤ max_blocks }
    requires frames { is_frames count frames.now ≡ true }
    ensures { blocks_of sheet.new ≡ blocks_in count frames.now }
{
    let mut left = frames;
    for index in 0..count {
        let (block, behind) = next_frame(BlockNumber(index + 1), left);
        append(sheet, block);
        left = behind;
    }
}

// The same as `split_frame`, where there is a frame.
fn next_frame(number: BlockNumber, frames: &[u8]) -> (&[u8], &[u8])
    requires { has_frame number.0 frames.now ≡ true }
    ensures block { result.0.now ≡ first_block frames.now }
    ensures left { result.1.now ≡ behind frames.now }
{
    split_frame(number, frames).unwrap()
}

// Appends a block that a sheet has room for.
fn append(sheet: &mut Sheet, bytes: &[u8])
    requires slot { length (blocks_of sheet.old) < max_blocks }
    requires room { total_bytes (blocks_of sheet.old) + length bytes.now ≤ max_bytes }
    ensures { blocks_of sheet.new ≡ blocks_of sheet.old ++ bytes.now ∷ [] }
{
    sheet.add(bytes).unwrap();
}
