// What the words of a command line ask for.
ghost use Rattle.std.specs.Prelude.{◌≡◌};
ghost use Rattle.std.specs.List.{list_any};
ghost use Rattle.commands.specs.Names.{IsNamed};
ghost use Rattle.commands.specs.Choices.{is_help, choice_told, chosen, key_chosen, command_chosen};

use crate::command::Command;
use crate::misuse::Misuse;
use crate::usage::Page;

// A usage to be printed, a command with the words behind it, or what is wrong.
#[derive(Clone, Copy)]
pub(crate) enum Choice<'w, 'a> {
    Print(Page),
    Run(Command, &'w [&'a str]),
    Misused(Misuse, Page),
}

pub(crate) fn choose<'w, 'a>(words: &'w [&'a str]) -> Choice<'w, 'a>
    ensures { choice_told result ≡ chosen words.entry.now }
{
    let Some((word, rest)) = words.split_first() else {
        return Choice::Misused(Misuse::NoCommand, Page::Overview);
    };
    if is_help(word) {
        return Choice::Print(Page::Overview);
    }
    if *word == "key" {
        return choose_on_keys(rest);
    }
    match Command::named(word) {
        Some(command) => choose_command(command, rest),
        None => Choice::Misused(Misuse::NoSuchCommand, Page::Overview),
    }
}

fn is_help(word: &str) -> bool
    ensures { result ≡ is_help word.now }
{
    word == "--help" || word == "help"
}

fn choose_on_keys<'w, 'a>(words: &'w [&'a str]) -> Choice<'w, 'a>
    ensures { choice_told result ≡ key_chosen words.entry.now }
{
    let Some((word, rest)) = words.split_first() else {
        return Choice::Misused(Misuse::NoCommandOnKeys, Page::Keys);
    };
    if is_help(word) {
        return Choice::Print(Page::Keys);
    }
    match Command::of_keys(word) {
        Some(command) => choose_command(command, rest),
        None => Choice::Misused(Misuse::NoSuchCommandOnKeys, Page::Keys),
    }
}

// Each command has a name, so that words can choose it.
#[tactic(auto, using(crate::proofs::EachNamed::each_named))]
fn choose_command<'w, 'a>(command: Command, words: &'w [&'a str]) -> Choice<'w, 'a>
    ensures choice { choice_told result ≡ command_chosen command words.entry.now }
    ensures named { IsNamed command }
{
    if words.contains(&"--help") {
        return Choice::Print(Page::Of(command));
    }
    Choice::Run(command, words)
}
