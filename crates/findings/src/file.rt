// What a sealed file says.
ghost use Rattle.std.specs.Prelude.{◌≡◌, true, false, [], ◌++◌, IfOk, OnOk, MatchResult, string_bytes};
ghost use Rattle.answers.specs.declared.Refusal.TheVariants.{Malformed};
ghost use Rattle.sheets.specs.Blocks.{blocks_of};
ghost use Rattle.seals.specs.Head.{head_fields};
ghost use Rattle.files.specs.File.{is_file, seal_of, blocks_of_file};
ghost use Rattle.findings.specs.Sealed.{count_line, front_text, sealed_text, file_text};

use crate::block::push_block;
use crate::head::{push_family, push_kinds};
use crate::refused::refusal_text;
use answers::Refusal;
use files::unpack;
use seals::{PartHead, head_of};
use sheets::Sheet;
use std::alloc::{AllocError, Global};
use std::fmt::Write;

const UNCHECKED: &str =
    "not checked: only a check with the key tells whether a block was changed\n";

// The head of the file's seal part and a line for each block, or why the bytes are no sealed file. No digest and no signature is looked at.
#[tactic(auto, unfolding(crate::specs::Sealed::file_text))]
pub fn file_text(alloc: Global, file: &[u8]) -> Result<String, AllocError>
    ensures { IfOk result (λ s. string_bytes s ≡ file_text file.now) }
{
    let mut sheet = Sheet::new(alloc)?;
    match unpack_head(&mut sheet, file) {
        Ok(head) => sealed_text(alloc, head, &sheet),
        Err(refusal) => refusal_text(alloc, refusal),
    }
}

// Fills an empty sheet with the file's blocks, and answers the head of its seal part.
#[tactic(auto, using(files::proofs::SealPlace::part_fits, files::proofs::SealPlace::part_there), unfolding(files::specs::File::unpack_answer))]
fn unpack_head(sheet: &mut Sheet, file: &[u8]) -> Result<PartHead, Refusal>
    requires { blocks_of sheet.old ≡ [] }
    ensures { MatchResult result
        (λ h. (is_file file.now ≡ true) × (h ≡ head_fields (seal_of file.now)) × (blocks_of sheet.new ≡ blocks_of_file file.now))
        (λ e. (is_file file.now ≡ false) × (e ≡ Malformed)) }
{
    let (place, length) = unpack(sheet, file)?;
    head_of(&file[place..place + length]).ok_or(Refusal::Malformed)
}

#[tactic(auto, unfolding(crate::specs::Sealed::sealed_text))]
fn sealed_text(alloc: Global, head: PartHead, sheet: &Sheet) -> Result<String, AllocError>
    ensures { IfOk result (λ s. string_bytes s ≡ sealed_text head (blocks_of sheet.now)) }
{
    let mut text = front_text(alloc, head, sheet)?;
    for (index, block) in sheet.blocks().enumerate() {
        push_block(&mut text, index + 1, block)?;
    }
    text.push_str(UNCHECKED)?;
    Ok(text)
}

// What stands before the lines of the blocks.
#[tactic(auto, unfolding(crate::specs::Sealed::front_text))]
fn front_text(alloc: Global, head: PartHead, sheet: &Sheet) -> Result<String, AllocError>
    ensures { IfOk result (λ s. string_bytes s ≡ front_text head (blocks_of sheet.now)) }
{
    let number = head.number;
    let mut text = format!(in alloc; "seal number {number}\n")?;
    push_family(&mut text, head)?;
    push_kinds(&mut text, head)?;
    push_counts(&mut text, sheet)?;
    Ok(text)
}

#[tactic(auto, unfolding(crate::specs::Sealed::count_line))]
fn push_counts(text: &mut String, sheet: &Sheet) -> Result<(), AllocError>
    ensures { OnOk result (string_bytes text.new ≡ string_bytes text.old ++ count_line (blocks_of sheet.now)) }
{
    let count = sheet.block_count();
    let total = sheet.total();
    writeln!(text, "blocks {count}, {total} bytes")
}
