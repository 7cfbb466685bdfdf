// How a block is shown.
ghost use Rattle.std.specs.Prelude.{◌≡◌, ◌++◌, OnOk, string_bytes};
ghost use Rattle.std.specs.List.{list_all};
ghost use Rattle.findings.specs.Lines.{line_of, is_printable, shown, block_line};

use std::alloc::AllocError;
use std::fmt::Write;

// A block without a last 0A.
#[tactic(auto, unfolding(crate::specs::Lines::line_of))]
pub fn line_of(block: &[u8]) -> &[u8]
    ensures { result.now ≡ line_of block.now }
{
    match block {
        [line @ .., b'\n'] => line,
        _ => block,
    }
}

fn is_printable(line: &[u8]) -> bool
    ensures { result ≡ list_all is_printable line.now }
{
    line.iter().all(|byte| (b' '..=b'~').contains(byte))
}

// A line, if it is text: no other byte may reach a screen, since it could move the cursor there.
#[tactic(auto, using(crate::proofs::Printable::printable_utf8), unfolding(crate::specs::Lines::shown))]
pub fn shown(line: &[u8]) -> &str
    ensures { result.now ≡ shown line.now }
{
    if !is_printable(line) {
        return "(not text)";
    }
    str::from_utf8(line).unwrap()
}

// Appends a block's number, its length and its text.
pub fn push_block(text: &mut String, number: usize, block: &[u8]) -> Result<(), AllocError>
    ensures { OnOk result (string_bytes text.new ≡ string_bytes text.old ++ block_line number block.now) }
{
    let size = block.len();
    let line = line_of(block);
    if line.is_empty() {
        return writeln!(text, "{number} {size}");
    }
    let shown = shown(line);
    writeln!(text, "{number} {size} {shown}")
}
