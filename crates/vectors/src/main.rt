// Prints what digests, HMACs, families, tag keys and LMS keys answer to the lines of standard input, for test vectors.
#![tactic(auto)]

ghost use Rattle.std.specs.Prelude.{IfSome, OnOk};
ghost use Rattle.std.specs.Io.KnownBytes.{Appends};
ghost use Rattle.vectors.specs.Prints.{input_text};

mod digest;
mod family;
mod lines;
mod lms_lines;
mod pieces;
mod tag;
mod verb;

use lines::answer_lines;
use std::alloc::Global;
use std::io;
use std::io::{Read, Write};

fn main(rt: HostRuntime) -> io::Result<()> {
    answer_input(rt.alloc(), rt.stdin(), &mut rt.stdout())
}

// Writes what the lines of the input answer.
fn answer_input<R: Read + Drop, W: Write>(
    alloc: Global,
    mut input: R,
    output: &mut W,
) -> io::Result<()>
    ensures { OnOk result (IfSome (R.remaining input) (λ text. Appends (W.contents output.old) (W.contents output.new) (input_text text))) }
{
    let mut text = Vec::new(alloc);
    let _ = input.read_to_end(&mut text)?;
    let answers = answer_lines(alloc, &text)?;
    output.write_all(answers.as_bytes())
}
