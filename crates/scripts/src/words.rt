// The words of a line are set apart by single spaces.
ghost use Rattle.std.specs.Prelude.{◌≡◌, ◌+◌, ◌<◌, ◌≤◌, length, take, drop, Some, None, IfSome, MatchOption};
ghost use Rattle.std.specs.Option.{ok_or, option_map, option_and_then};
ghost use Rattle.std.specs.Result.{result_map_both};
ghost use Rattle.scripts.specs.Words.{first_word, behind_word, alone, decimal_value, number_of};
ghost use Rattle.scripts.specs.Lines.{silent};
ghost use Rattle.scripts.specs.declared.error.ParseError.TheVariants.{NotUnderstood};

use crate::error::ParseError;
use std::marker::Model;

// An empty line, or a comment.
pub fn is_silent(line: &[u8]) -> bool
    ensures { result ≡ silent line.now }
{
    matches!(line, [] | [b'#', ..])
}

// What is left of a line, if anything is: words.
#[derive(Drop)]
pub struct Words<'a> {
    left: Option<&'a [u8]>,
}

impl<'a> Model for Words<'a> {
    ghost use Rattle.std.specs.Prelude.{List, ℕ, Option};
    ghost use Rattle.std.specs.Option.{option_map};

    ghost Value = { Option (List ℕ) };

    ghost view = { λ w. option_map (λ x. x.now) w.left };
}

impl<'a> Words<'a> {
    pub fn new(line: &'a [u8]) -> Words<'a>
        ensures { result ≡ Some line.entry.now }
    {
        Words { left: Some(line) }
    }

    // Takes the next word.
    pub fn next_word(&mut self) -> Result<&'a [u8], ParseError>
        ensures word { result_map_both (λ w. w.now) (λ e. e) result ≡ ok_or (option_map first_word self.old) NotUnderstood }
        ensures rest { self.new ≡ option_and_then behind_word self.old }
    {
        let left = self.left.ok_or(ParseError::NotUnderstood)?;
        let (word, rest) = split_word(left);
        self.left = rest;
        Ok(word)
    }

    // All that is left, as one last word.
    pub fn last_word(self) -> Result<&'a [u8], ParseError>
        ensures { result_map_both (λ w. w.now) (λ e. e) result ≡ ok_or self.entry NotUnderstood }
    {
        self.left.ok_or(ParseError::NotUnderstood)
    }

    // All that is left, if anything is.
    pub fn rest(self) -> Option<&'a [u8]>
        ensures { option_map (λ w. w.now) result ≡ self.entry }
    {
        let Words { left } = self;
        left
    }

    // No word is left.
    pub fn end(self) -> Result<(), ParseError>
        ensures { result ≡ ok_or (alone tt self.entry) NotUnderstood }
    {
        match self.left {
            Some(_) => Err(ParseError::NotUnderstood),
            None => Ok(()),
        }
    }
}

// The first word of a line, and what stands behind the space after it, if there is one.
pub fn split_word(line: &[u8]) -> (&[u8], Option<&[u8]>)
    ensures word { result.0.now ≡ first_word line.now }
    ensures rest { option_map (λ x. x.now) result.1 ≡ behind_word line.now }
{
    match first_space(line) {
        Some(i) => (&line[..i], Some(&line[i + 1..])),
        None => (line, None),
    }
}

fn first_space(line: &[u8]) -> Option<usize>
    ensures { MatchOption result
        ((line.now ≡ first_word line.now) × (None ≡ behind_word line.now))
        (λ i. (i < length line.now) × (take i line.now ≡ first_word line.now) × (Some (drop (i + 1) line.now) ≡ behind_word line.now)) }
{
    line.iter().position(|byte| *byte == b' ')
}

// The number of a word of digits, of which there is at least one, if it is at most so much. No `parse`, which would take a plus sign.
#[tactic(auto, using(crate::proofs::WordLemmas::number_steps))]
pub fn parse_number(word: &[u8], most: u32) -> Option<u32>
    ensures value { result ≡ number_of word.now most }
    ensures bound { IfSome result (λ n. n ≤ most) }
{
    if word.is_empty() {
        return None;
    }
    let mut number: u64 = 0;
    for &byte in word {
        number = number * 10 + u64::from(decimal_digit(byte)?);
        // More digits never bring it down again, so that it stays small however long the word is.
        if number > u64::from(most) {
            return None;
        }
    }
    Some(number as u32)
}

// No `char::to_digit`: it asks for a character, and answers a `u32`. `decode_digit` has the letters too, by a definition of its own.
fn decimal_digit(byte: u8) -> Option<u8>
    ensures value { result ≡ decimal_value byte }
    ensures bound { IfSome result (λ d. d < 10) }
{
    match byte {
        b'0'..=b'9' => Some(byte - b'0'),
        _ => None,
    }
}
