// The texts of a family, and of the rows that hold a block.
ghost use Rattle.std.specs.Prelude.{◌≡◌, IfOk, string_bytes};
ghost use Rattle.told.specs.Texts.{family_text, rows_text};

use answers::{BlockNumber, RowNumber};
use families::family::Family;
use std::alloc::{AllocError, Global};
use std::fmt::Write;

// All numbers that a family answers.
#[tactic(auto, using(crate::proofs::Told::family_told))]
pub fn family_text<F: Family>(alloc: Global, family: &F) -> Result<String, AllocError>
    ensures { IfOk result (λ s. string_bytes s ≡ family_text (F.shape family.now)) }
{
    let kind = family.kind_byte();
    let (q, k) = (family.q(), family.k());
    let n = family.block_count();
    let t = family.row_count();
    let d = family.strength();
    format!(in alloc; "family {kind} {q} {k} {n} {t} {d}")
}

// The rows that hold a block, rising: none where there is no such block.
#[tactic(auto, using(crate::proofs::Told::told_on, crate::proofs::Told::told_past))]
pub fn rows_text<F: Family>(
    alloc: Global,
    family: &F,
    block: BlockNumber,
) -> Result<String, AllocError>
    ensures { IfOk result (λ s. string_bytes s ≡ rows_text (F.shape family.now) block.0) }
{
    let mut text = String::from_str(alloc, "rows")?;
    for below in 0..family.row_count() {
        let row = below + 1;
        if family.holds(RowNumber(row), block) {
            write!(text, " {row}")?;
        }
    }
    Ok(text)
}
