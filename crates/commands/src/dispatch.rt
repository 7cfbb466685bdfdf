// Running the command that the words of a command line name.
use crate::choice::{Choice, choose};
use crate::command::Command;
use crate::demo::demo;
use crate::keeping::{new_key, public_part, show_key};
use crate::office::{check, confirm, excerpt, lines, part, rewrite, show, vouch};
use crate::problem::Problem;
use crate::sealing::seal;
use crate::words::Words;

pub fn run<'a>(rt: &HostRuntime, words: &[&'a str]) -> Result<(), Problem<'a>> {
    match choose(words) {
        Choice::Print(page) => print(rt, page.text()),
        Choice::Run(command, rest) => run_command(rt, command, rest),
        Choice::Misused(what, page) => Err(Problem::Usage(what, page)),
    }
}

fn run_command<'a>(
    rt: &HostRuntime,
    command: Command,
    words: &[&'a str],
) -> Result<(), Problem<'a>> {
    let words = Words::split(rt.alloc(), command, words)?;
    match command {
        Command::KeyNew => new_key(rt, &words),
        Command::KeyPublic => public_part(rt, &words),
        Command::KeyShow => show_key(rt, &words),
        Command::Seal => seal(rt, &words),
        Command::Check => check(rt, &words),
        Command::Rewrite => rewrite(rt, &words),
        Command::Vouch => vouch(rt, &words),
        Command::Excerpt => excerpt(rt, &words),
        Command::Confirm => confirm(rt, &words),
        Command::Part => part(rt, &words),
        Command::Show => show(rt, &words),
        Command::Lines => lines(rt, &words),
        Command::Demo => demo(rt, &words),
        // The program runs a script itself: only with other words it comes here.
        Command::Replay => words.expect(0, &[]),
    }
}

fn print<'a>(rt: &HostRuntime, text: &str) -> Result<(), Problem<'a>> {
    rt.print(text).map_err(|error| Problem::Output(error))
}
