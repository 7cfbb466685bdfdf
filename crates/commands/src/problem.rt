// Why a command did not do what it was asked.
ghost use Rattle.std.specs.Prelude.{◌≡◌, None, IfOk, string_bytes};
ghost use Rattle.std.specs.Option.{option_copied};
ghost use Rattle.std.specs.IoError.{error_kind};
ghost use Rattle.commands.specs.declared.problem.Problem.TheVariants.{Refused, OutOfMemory};
ghost use Rattle.commands.specs.Problems.{line_about, own_words, TellsOf, Tells, stop_problem, key_problem};

use crate::misuse::Misuse;
use crate::usage::Page;
use answers::Refusal;
use desk::Stop;
use findings::refusal_text;
use scripts::ParseError;
use std::alloc::{AllocError, AllocFailed, Global};
use std::io;

#[derive(Drop)]
pub enum Problem<'a> {
    // The command line is none.
    Usage(Misuse, Page),
    File(&'a str, io::Error),
    NotAKey(&'a str),
    // A key that can only check was to seal.
    CannotSeal(&'a str),
    // The public part was asked of a key that has none.
    NoPublicPart(&'a str),
    InUse(&'a str),
    Refused(Refusal),
    OutOfMemory,
    // What was to be printed was not.
    Output(io::Error),
}

impl From<Refusal> for Problem<'_> {
    ghost from_gives = { λ r p. p ≡ Refused r };

    fn from(refusal: Refusal) -> Self {
        Problem::Refused(refusal)
    }
}

impl From<AllocError> for Problem<'_> {
    ghost from_gives = { λ _ p. p ≡ OutOfMemory };

    fn from(_: AllocError) -> Self {
        Problem::OutOfMemory
    }
}

impl<T: Drop> From<AllocFailed<T>> for Problem<'_> {
    ghost from_gives = { λ _ p. p ≡ OutOfMemory };

    fn from(_: AllocFailed<T>) -> Self {
        Problem::OutOfMemory
    }
}

impl From<Stop> for Problem<'_> {
    ghost from_gives = { λ s p. p ≡ stop_problem s };

    fn from(stop: Stop) -> Self {
        match stop {
            Stop::Refused(refusal) => Problem::Refused(refusal),
            Stop::OutOfMemory(_) => Problem::OutOfMemory,
        }
    }
}

impl Problem<'_> {
    // In plain words, with the refusal's number where there is one.
    pub fn text(&self, alloc: Global) -> Result<String, AllocError>
        ensures { IfOk result (λ s. Tells self.now (string_bytes s)) }
    {
        match self {
            Problem::Usage(what, page) => usage_text(alloc, *what, *page),
            Problem::File(path, error) => file_text(alloc, path, error),
            Problem::NotAKey(path) => line_about(alloc, path, "not a key file"),
            Problem::CannotSeal(path) => {
                line_about(alloc, path, "the public part of a key, which signs no seal")
            }
            Problem::NoPublicPart(path) => line_about(alloc, path, "a tag key has no public part"),
            Problem::InUse(path) => line_about(alloc, path, "in use by another program"),
            Problem::Refused(refusal) => refusal_text(alloc, *refusal),
            Problem::OutOfMemory => format!(in alloc; "out of memory\n"),
            Problem::Output(error) => system_text(alloc, "standard output", error),
        }
    }
}

fn usage_text(alloc: Global, what: Misuse, page: Page) -> Result<String, AllocError>
    ensures { IfOk result (λ s. Tells (Problem.Usage what page) (string_bytes s)) }
{
    let (what, usage) = (what.text(), page.text());
    format!(in alloc; "{what}\n{usage}")
}

fn line_about(alloc: Global, path: &str, words: &str) -> Result<String, AllocError>
    ensures { IfOk result (λ s. string_bytes s ≡ line_about path.now words.now) }
{
    format!(in alloc; "{path}: {words}\n")
}

// The commonest in words of our own, of which one system and another have different ones.
fn file_text(alloc: Global, path: &str, error: &io::Error) -> Result<String, AllocError>
    ensures { IfOk result (λ s. TellsOf path.now (own_words (error_kind error.now)) (string_bytes s)) }
{
    match own_words(error.kind()) {
        Some(words) => line_about(alloc, path, words),
        None => system_text(alloc, path, error),
    }
}

#[tactic(auto, using(crate::proofs::ErrorKinds::no_words), unfolding(crate::specs::Problems::own_words))]
fn own_words(kind: io::ErrorKind) -> Option<&'static str>
    ensures { option_copied result ≡ own_words kind }
{
    match kind {
        io::ErrorKind::AlreadyExists => Some("is there already, and is not overwritten"),
        io::ErrorKind::NotFound => Some("no such file or folder"),
        io::ErrorKind::IsADirectory => Some("a folder, not a file"),
        _ => None,
    }
}

// What the system says of an error, of which no contract knows more than where it stands in the line.
fn system_text(alloc: Global, path: &str, error: &io::Error) -> Result<String, AllocError>
    ensures { IfOk result (λ s. TellsOf path.now None (string_bytes s)) }
{
    let words = format!(in alloc; "{error}")?;
    line_about(alloc, path, words.as_str())
}

// What a key file that is not understood means, and one that there was no memory for.
pub(crate) fn key_problem(path: &str, error: ParseError) -> Problem<'_>
    ensures { result ≡ key_problem path.entry error }
{
    match error {
        ParseError::NotUnderstood => Problem::NotAKey(path),
        ParseError::OutOfMemory(_) => Problem::OutOfMemory,
    }
}
