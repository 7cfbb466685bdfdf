// What programs print of a sheet.
#![tactic(auto)]

ghost use Rattle.std.specs.Prelude.{◌≡◌, IfOk, string_bytes};
ghost use Rattle.sheets.specs.Blocks.{blocks_of};
ghost use Rattle.reports.specs.Reports.{sheet_report, text_report};

use sheets::Sheet;
use std::alloc::{AllocError, Global};
use std::fmt::Write;

// Cuts a text into a new sheet: the count of blocks and a line with number and length for each, or the refusal.
pub fn text_report(alloc: Global, text: &[u8]) -> Result<String, AllocError>
    ensures { IfOk result (λ s. string_bytes s ≡ text_report text.now) }
{
    let mut sheet = Sheet::new(alloc)?;
    match sheet.cut(text) {
        Ok(_) => sheet_report(alloc, &sheet),
        Err(refusal) => format!(in alloc; "{refusal}\n"),
    }
}

// The count of blocks, and a line with number and length for each.
pub fn sheet_report(alloc: Global, sheet: &Sheet) -> Result<String, AllocError>
    ensures { IfOk result (λ s. string_bytes s ≡ sheet_report (blocks_of sheet.now)) }
{
    let count = sheet.block_count();
    let mut report = format!(in alloc; "blocks {count}\n")?;
    for (index, block) in sheet.blocks().enumerate() {
        let number = index + 1;
        let size = block.len();
        writeln!(report, "{number} {size}")?;
    }
    Ok(report)
}
