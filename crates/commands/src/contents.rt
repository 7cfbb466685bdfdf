// What the commands make of the bytes of files.
ghost use Rattle.std.specs.Prelude.{◌≡◌, [], length, string_bytes, vec_items};
ghost use Rattle.std.specs.Result.{result_map_both};
ghost use Rattle.families.specs.Any.{any_shape};
ghost use Rattle.files.specs.File.{blocks_of_file};
ghost use Rattle.seals.specs.Calls.{excerpt_answer};
ghost use Rattle.sheets.specs.Blocks.{blocks_of};
ghost use Rattle.sheets.specs.Calls.{after};
ghost use Rattle.desk.specs.Named.{scheme_by};
ghost use Rattle.desk.specs.Stopped.{Answers};
ghost use Rattle.commands.specs.Contents.{part_told, rewritten_told, findings_told, sealed_told, lines_told};

use answers::{BlockNumber, Refusal, RowNumber};
use desk::{OpenFile, Stop, pack_file};
use files::unpack;
use findings::{check_text, file_text};
use reports::text_report;
use sheets::Sheet;
use std::alloc::Global;

// The seal part of a sealed file.
pub(crate) fn part_of(alloc: Global, file: &[u8]) -> Result<&[u8], Stop>
    ensures { Answers (λ p. p.now) result (part_told [] file.entry.now) }
{
    let mut sheet = Sheet::new(alloc)?;
    Ok(unpack_part(&mut sheet, file)?)
}

// Fills an empty sheet with a sealed file's blocks, and answers its seal part.
#[tactic(auto, using(files::proofs::SealPlace::part_fits, files::proofs::SealPlace::part_there))]
fn unpack_part<'a>(sheet: &mut Sheet, file: &'a [u8]) -> Result<&'a [u8], Refusal>
    ensures part { result_map_both (λ p. p.now) (λ e. e) result ≡ part_told (blocks_of sheet.old) file.entry.now }
    ensures blocks { blocks_of sheet.new ≡ after result (blocks_of_file file.entry.now) (blocks_of sheet.old) }
{
    let (place, length) = unpack(sheet, file)?;
    Ok(&file[place..place + length])
}

// A sealed file with other bytes for one block, and the seal part as it is.
pub(crate) fn rewritten(
    alloc: Global,
    file: &[u8],
    block: BlockNumber,
    bytes: &[u8],
) -> Result<Vec<u8>, Stop>
    ensures { Answers vec_items result (rewritten_told file.now block.0 bytes.now) }
{
    let mut sheet = Sheet::new(alloc)?;
    let part = unpack_part(&mut sheet, file)?;
    let _ = sheet.rewrite(block, bytes)?;
    pack_file(alloc, &sheet, part)
}

// What a check names, with room for so many blocks.
#[tactic(auto, using(crate::proofs::Fronts::named_there))]
pub(crate) fn findings_of(
    alloc: Global,
    opened: &OpenFile,
    list: &mut [u16],
) -> Result<String, Stop>
    ensures { Answers string_bytes result (findings_told (scheme_by opened.now.part.digest (any_shape opened.now.part.family)) opened.now.part.seal.part.now (blocks_of opened.now.sheet) (length list.old)) }
{
    let count = opened.check(list)?;
    let named = &list[..count.min(list.len())];
    let number = opened.part.seal.number();
    Ok(check_text(alloc, &opened.sheet, number, named)?)
}

// The other blocks of a row that holds the block, if they have no more bytes than so many.
#[tactic(auto, using(crate::proofs::Fronts::front_there))]
pub(crate) fn excerpt_of(
    alloc: Global,
    opened: &OpenFile,
    block: BlockNumber,
    row: RowNumber,
    room: usize,
) -> Result<Vec<u8>, Stop>
    ensures { Answers vec_items result (excerpt_answer (any_shape opened.now.part.family) opened.now.part.seal.part.now (blocks_of opened.now.sheet) block.0 row.0 room) }
{
    let mut excerpt = vec![in alloc; 0; room]?;
    let length = opened.excerpt(block, row, &mut excerpt)?;
    excerpt.truncate(length);
    Ok(excerpt)
}

// What a sealed file says.
pub(crate) fn sealed_text_of(alloc: Global, file: &[u8]) -> Result<String, Stop>
    ensures { Answers string_bytes result (sealed_told file.now) }
{
    let mut sheet = Sheet::new(alloc)?;
    let _ = unpack(&mut sheet, file)?;
    Ok(file_text(alloc, file)?)
}

// The blocks that a text is cut into.
pub(crate) fn lines_of(alloc: Global, text: &[u8]) -> Result<String, Stop>
    ensures { Answers string_bytes result (lines_told text.now) }
{
    let mut sheet = Sheet::new(alloc)?;
    let _ = sheet.cut(text)?;
    Ok(text_report(alloc, text)?)
}
