// The lines of the input, and what is printed for each.
ghost use Rattle.std.specs.Prelude.{◌≡◌, ◌++◌, IfOk, string_bytes, OnOk};
ghost use Rattle.vectors.specs.Prints.{line_text, input_text};

use crate::verb::line_answer;
use scripts::{ParseError, is_silent};
use std::alloc::{AllocError, Global};
use std::fmt::Write;

// What is printed for all lines of an input.
pub fn answer_lines(alloc: Global, input: &[u8]) -> Result<String, AllocError>
    ensures { IfOk result (λ s. string_bytes s ≡ input_text input.now) }
{
    let mut out = String::new(alloc);
    for line in input.split(|byte| *byte == b'\n') {
        answer_line(alloc, line, &mut out)?;
    }
    Ok(out)
}

// Appends what one line prints. Blank lines and comments print nothing; that a line is not understood is an answer, and want of memory goes on.
#[tactic(auto, unfolding(crate::specs::Prints::line_text))]
fn answer_line(alloc: Global, line: &[u8], out: &mut String) -> Result<(), AllocError>
    ensures { OnOk result (string_bytes out.new ≡ string_bytes out.old ++ line_text line.now) }
{
    if is_silent(line) {
        return Ok(());
    }
    match line_answer(alloc, line) {
        Ok(answer) => out.push_str(answer.as_str())?,
        Err(ParseError::OutOfMemory(error)) => return Err(error),
        Err(error) => write!(out, "{error}")?,
    }
    out.push('\n')
}
