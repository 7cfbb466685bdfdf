// The first words of lines, and what each asks.
ghost use Rattle.std.specs.Prelude.{◌≡◌, string_bytes};
ghost use Rattle.scripts.specs.Reading.{Reads};
ghost use Rattle.vectors.specs.Verbs.{verb_of, verb_answer, line_answer};

use crate::digest::Question;
use crate::family::{answer_choice, answer_family, answer_rows};
use crate::lms_lines::{answer_root, answer_sign, answer_verify};
use crate::tag::{answer_inspect, answer_tag};
use blake2s::Blake2s;
use scripts::{ParseError, Words};
use sha256::Sha256;
use std::alloc::Global;
use told::Algorithm;

#[derive(Clone, Copy)]
enum Verb {
    Digest(Algorithm, Question),
    // NAME
    Family,
    // J NAME
    Rows,
    // N D
    Choose,
    // DIGEST SECRET NAME NEXT HEX
    Tag,
    // DIGEST SECRET NUMBER HEX TAG
    Inspect,
    // I SEED
    LmsRoot,
    // I SEED LEAF HEX
    LmsSign,
    // PUBLIC NUMBER HEX SIGNATURE
    LmsVerify,
}

// The text that a line answers, if it is understood.
#[tactic(auto, unfolding(crate::specs::Verbs::line_answer))]
pub fn line_answer(alloc: Global, line: &[u8]) -> Result<String, ParseError>
    ensures { Reads string_bytes (line_answer line.now) result }
{
    let mut words = Words::new(line);
    let word = words.next_word()?;
    let verb = Verb::named(word).ok_or(ParseError::NotUnderstood)?;
    verb.answer(alloc, words)
}

impl Verb {
    #[tactic(auto, using(scripts::proofs::TableLemmas::row_read, crate::proofs::Rows::row_fifth))]
    fn named(word: &[u8]) -> Option<Verb>
        ensures { result ≡ verb_of word.now }
    {
        match word {
            b"sha256" => Some(Verb::Digest(Algorithm::Sha256, Question::Digest)),
            b"hmac-sha256" => Some(Verb::Digest(Algorithm::Sha256, Question::Hmac)),
            b"repeat-sha256" => Some(Verb::Digest(Algorithm::Sha256, Question::Repeat)),
            b"blake2s" => Some(Verb::Digest(Algorithm::Blake2s, Question::Digest)),
            b"hmac-blake2s" => Some(Verb::Digest(Algorithm::Blake2s, Question::Hmac)),
            b"repeat-blake2s" => Some(Verb::Digest(Algorithm::Blake2s, Question::Repeat)),
            b"family" => Some(Verb::Family),
            b"rows" => Some(Verb::Rows),
            b"choose" => Some(Verb::Choose),
            b"tag" => Some(Verb::Tag),
            b"inspect" => Some(Verb::Inspect),
            b"lms-root" => Some(Verb::LmsRoot),
            b"lms-sign" => Some(Verb::LmsSign),
            b"lms-verify" => Some(Verb::LmsVerify),
            _ => None,
        }
    }

    // The answer to what stands behind the first word.
    fn answer(self, alloc: Global, words: Words) -> Result<String, ParseError>
        ensures { Reads string_bytes (verb_answer self words.entry) result }
    {
        match self {
            Verb::Digest(Algorithm::Sha256, question) => question.answer::<Sha256>(alloc, words),
            Verb::Digest(Algorithm::Blake2s, question) => question.answer::<Blake2s>(alloc, words),
            Verb::Family => answer_family(alloc, words),
            Verb::Rows => answer_rows(alloc, words),
            Verb::Choose => answer_choice(alloc, words),
            Verb::Tag => answer_tag(alloc, words),
            Verb::Inspect => answer_inspect(alloc, words),
            Verb::LmsRoot => answer_root(alloc, words),
            Verb::LmsSign => answer_sign(alloc, words),
            Verb::LmsVerify => answer_verify(alloc, words),
        }
    }
}
