// `nazkoiber`: keys, sheets and sealed files by commands, and `nazkoiber replay`, which runs a script of calls from standard input and prints what each answered.
#![tactic(auto)]

ghost use Rattle.std.specs.Prelude.{IfSome, OnOk};
ghost use Rattle.std.specs.Io.KnownBytes.{Appends};
ghost use Rattle.nazkoiber.specs.State.{start};
ghost use Rattle.nazkoiber.specs.Answering.{script_text};

mod bench;
mod call;

use bench::run::replay;
use std::alloc::Global;
use std::io::{Read, Write};
use std::process::ExitCode;
use std::{env, io};

fn main(rt: HostRuntime) -> io::Result<ExitCode> {
    let given = match given_words(&rt) {
        Ok(given) => given,
        Err(error) => {
            eprintln!(rt; "nazkoiber: a word of the command line is not UTF-8 ({error})")?;
            return Ok(ExitCode::FAILURE);
        }
    };
    let mut words = Vec::new(rt.alloc());
    for word in given.iter() {
        words.push(word.as_str())?;
    }
    match words.as_slice() {
        ["replay"] => Ok(run_replay(&rt)),
        words => run_command(&rt, words),
    }
}

fn given_words(rt: &HostRuntime) -> io::Result<Vec<String>> {
    let mut given = Vec::new(rt.alloc());
    for word in env::args(rt)?.skip(1) {
        given.push(word)?;
    }
    Ok(given)
}

fn run_command(rt: &HostRuntime, words: &[&str]) -> io::Result<ExitCode> {
    match commands::run(rt, words) {
        Ok(()) => Ok(ExitCode::SUCCESS),
        Err(problem) => {
            let text = problem.text(rt.alloc())?;
            eprint!(rt; "nazkoiber: {text}")?;
            Ok(ExitCode::FAILURE)
        }
    }
}

fn run_replay(rt: &HostRuntime) -> ExitCode {
    match replay_input(rt.alloc(), rt.stdin(), &mut rt.stdout()) {
        Ok(()) => ExitCode::SUCCESS,
        Err(error) => {
            let _ = eprintln!(rt; "nazkoiber: {error}");
            ExitCode::FAILURE
        }
    }
}

// Writes what the calls of the input's script answer.
fn replay_input<R: Read + Drop, W: Write>(
    alloc: Global,
    mut input: R,
    output: &mut W,
) -> io::Result<()>
    ensures { OnOk result (IfSome (R.remaining input) (λ script. Appends (W.contents output.old) (W.contents output.new) (script_text script start))) }
{
    let mut script = Vec::new(alloc);
    let _ = input.read_to_end(&mut script)?;
    output.write_all(&replay(alloc, &script)?)
}
