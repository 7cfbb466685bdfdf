// The words behind a command: what it works on, and its options.
ghost use Rattle.std.specs.Prelude.{◌≡◌};
ghost use Rattle.std.specs.List.{list_all};
ghost use Rattle.std.specs.Result.{result_map_both};
ghost use Rattle.answers.specs.Numbers.{block_number, row_number};
ghost use Rattle.commands.specs.Readings.{reading_of, Splits, is_option, is_among, expected, word_at, value_of, number_said, digest_said};

use crate::command::Command;
use crate::misuse::Misuse;
use crate::problem::Problem;
use crate::usage::Page;
use answers::{BlockNumber, RowNumber};
use scripts::parse_number;
use std::alloc::Global;
use told::Algorithm;

#[derive(Drop)]
pub(crate) struct Words<'a> {
    command: Command,
    operands: Vec<&'a str>,
    // An option's name, and the word behind it.
    options: Vec<(&'a str, &'a str)>,
}

impl<'a> Words<'a> {
    pub(crate) fn split(
        alloc: Global,
        command: Command,
        words: &[&'a str],
    ) -> Result<Words<'a>, Problem<'a>>
        ensures { Splits command words.now result }
    {
        let mut operands = Vec::new(alloc);
        let mut options = Vec::new(alloc);
        let mut name = None;
        for &word in words {
            if let Some(option) = name {
                options.push((option, word))?;
                name = None;
            } else if is_option(word) {
                name = Some(word);
            } else {
                operands.push(word)?;
            }
        }
        if name.is_some() {
            return Err(Problem::Usage(Misuse::LackingWord, Page::Of(command)));
        }
        Ok(Words {
            command,
            operands,
            options,
        })
    }

    pub(crate) fn wrong(&self, what: Misuse) -> Problem<'a>
        ensures { result ≡ Problem.Usage what (Page.Of self.now.command) }
    {
        Problem::Usage(what, Page::Of(self.command))
    }

    // Just so many words, and no option but these.
    pub(crate) fn expect(&self, count: usize, options: &[&str]) -> Result<(), Problem<'a>>
        ensures { result ≡ expected (reading_of self.now) count options.now }
    {
        if !are_among(options, &self.options) {
            return Err(self.wrong(Misuse::NoSuchOption));
        }
        if self.operands.len() != count {
            return Err(self.wrong(Misuse::WordCount));
        }
        Ok(())
    }

    // The word with that place, counted from 0.
    pub(crate) fn at(&self, place: usize) -> &'a str
        ensures { result.now ≡ word_at (reading_of self.now) place }
    {
        match self.operands.get(place) {
            Some(word) => word,
            None => "",
        }
    }

    // The word behind an option, the last of them.
    pub(crate) fn option(&self, name: &str) -> Option<&'a str>
        ensures { result ≡ value_of name.now (reading_of self.now) }
    {
        let mut found = None;
        for &(option, word) in self.options.iter() {
            if option == name {
                found = Some(word);
            }
        }
        found
    }

    pub(crate) fn number(&self, word: &str) -> Result<u16, Problem<'a>>
        ensures { result ≡ number_said self.now.command word.now }
    {
        match parse_number(word.as_bytes(), u32::from(u16::MAX)) {
            Some(number) => Ok(number as u16),
            None => Err(self.wrong(Misuse::NotANumber)),
        }
    }

    pub(crate) fn block(&self, word: &str) -> Result<BlockNumber, Problem<'a>>
        ensures { result ≡ result_map_both block_number (λ e. e) (number_said self.now.command word.now) }
    {
        Ok(BlockNumber(self.number(word)?))
    }

    pub(crate) fn row(&self, word: &str) -> Result<RowNumber, Problem<'a>>
        ensures { result ≡ result_map_both row_number (λ e. e) (number_said self.now.command word.now) }
    {
        Ok(RowNumber(self.number(word)?))
    }

    // SHA-256 where no option names a digest.
    pub(crate) fn digest(&self) -> Result<Algorithm, Problem<'a>>
        ensures { result ≡ digest_said (reading_of self.now) }
    {
        let Some(word) = self.option("--digest") else {
            return Ok(Algorithm::Sha256);
        };
        match Algorithm::named(word.as_bytes()) {
            Some(digest) => Ok(digest),
            None => Err(self.wrong(Misuse::NoSuchDigest)),
        }
    }
}

#[tactic(auto, using(std::proofs::lemmas::Str::Pattern::starts_text))]
fn is_option(word: &str) -> bool
    ensures { result ≡ is_option word.now }
{
    word.starts_with("--")
}

fn are_among(options: &[&str], given: &[(&str, &str)]) -> bool
    ensures { result ≡ list_all (λ o. is_among options.now o.0.now) given.now }
{
    given.iter().all(|(name, _)| is_among(options, name))
}

fn is_among(options: &[&str], name: &str) -> bool
    ensures { result ≡ is_among options.now name.now }
{
    options.iter().any(|option| *option == name)
}
