// Prints how standard input is cut into blocks: their count, then each one's number and length; or the refusal.
#![tactic(auto)]

ghost use Rattle.std.specs.Prelude.{IfSome, OnOk};
ghost use Rattle.std.specs.Io.KnownBytes.{Appends};
ghost use Rattle.reports.specs.Reports.{text_report};

use reports::text_report;
use sheets::MAX_BYTES;
use std::alloc::Global;
use std::io;
use std::io::{Read, Write};

fn main(rt: HostRuntime) -> io::Result<()> {
    report(rt.alloc(), rt.stdin(), &mut rt.stdout())
}

// Writes the report of the input's text.
#[tactic(auto, using(reports::proofs::Front::report_of_front))]
fn report<R: Read + Drop, W: Write>(alloc: Global, input: R, output: &mut W) -> io::Result<()>
    ensures { OnOk result (IfSome (R.remaining input) (λ text. Appends (W.contents output.old) (W.contents output.new) (text_report text))) }
{
    let mut text = Vec::new(alloc);
    // One byte above the limit shows that a text is too long: what stands behind it is never read.
    // The cast stays: no `From` leads from `usize` to `u64`.
    let _ = input.take(MAX_BYTES as u64 + 1).read_to_end(&mut text)?;
    let report = text_report(alloc, &text)?;
    output.write_all(report.as_bytes())
}
