// What a check named.
ghost use Rattle.std.specs.Prelude.{◌≡◌, ◌++◌, IfOk, OnOk, string_bytes};
ghost use Rattle.sheets.specs.Blocks.{blocks_of};
ghost use Rattle.findings.specs.Checked.{line_text, present_text, suspect_line, suspect_lines, findings, check_text};

use crate::block::{line_of, shown};
use answers::BlockNumber;
use sheets::Sheet;
use std::alloc::{AllocError, Global};
use std::fmt::Write;

// The seal number, and a line for each suspect with the text that the block has now.
#[tactic(auto, unfolding(crate::specs::Checked::check_text))]
pub fn check_text(
    alloc: Global,
    sheet: &Sheet,
    number: u32,
    suspects: &[u16],
) -> Result<String, AllocError>
    ensures { IfOk result (λ s. string_bytes s ≡ check_text (blocks_of sheet.now) number suspects.now) }
{
    let mut text = format!(in alloc; "seal number {number}\n")?;
    push_findings(&mut text, sheet, suspects)?;
    Ok(text)
}

fn push_findings(text: &mut String, sheet: &Sheet, suspects: &[u16]) -> Result<(), AllocError>
    ensures { OnOk result (string_bytes text.new ≡ string_bytes text.old ++ findings (blocks_of sheet.now) suspects.now) }
{
    if suspects.is_empty() {
        return text.push_str("no block was changed\n");
    }
    push_suspects(text, sheet, suspects)
}

fn push_suspects(text: &mut String, sheet: &Sheet, suspects: &[u16]) -> Result<(), AllocError>
    ensures { OnOk result (string_bytes text.new ≡ string_bytes text.old ++ suspect_lines (blocks_of sheet.now) suspects.now) }
{
    for &suspect in suspects {
        push_suspect(text, sheet, suspect)?;
    }
    Ok(())
}

// A changed block's number, and its text.
fn push_suspect(text: &mut String, sheet: &Sheet, number: u16) -> Result<(), AllocError>
    ensures { OnOk result (string_bytes text.new ≡ string_bytes text.old ++ suspect_line (blocks_of sheet.now) number) }
{
    let present = present_text(sheet, BlockNumber(number));
    writeln!(text, "changed block {number}: {present}")
}

// The text that a block has now.
#[tactic(auto, unfolding(crate::specs::Checked::present_text))]
fn present_text(sheet: &Sheet, number: BlockNumber) -> &str
    ensures { result.now ≡ present_text (blocks_of sheet.now) number.0 }
{
    match sheet.block(number) {
        Ok(block) => line_text(line_of(block)),
        Err(_) => "(no such block)",
    }
}

// A line that stands alone.
fn line_text(line: &[u8]) -> &str
    ensures { result.now ≡ line_text line.now }
{
    if line.is_empty() {
        "(empty)"
    } else {
        shown(line)
    }
}
