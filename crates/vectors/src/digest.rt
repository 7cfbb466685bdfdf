// What a line asks of a digest, whichever it is.
ghost use Rattle.std.specs.Prelude.{◌≡◌, string_bytes};
ghost use Rattle.std.specs.Option.{option_map};
ghost use Rattle.scripts.specs.Hex.{hex_text};
ghost use Rattle.scripts.specs.Reading.{Reads};
ghost use Rattle.vectors.specs.Asked.{question_answer};

use crate::pieces::{decode_words, digest_repeated};
use digests::{Digest, digest_of, hmac};
use scripts::{ParseError, Words, decode_array, decode_hex, parse_number, push_hex};
use std::alloc::Global;

// How often a piece can be repeated.
const MAX_COUNT: u32 = 1_000_000;

#[derive(Clone, Copy)]
pub enum Question {
    // HEX ..
    Digest,
    // KEY HEX
    Hmac,
    // COUNT HEX
    Repeat,
}

impl Question {
    // The answer to words, in hex.
    pub fn answer<D: Digest>(self, alloc: Global, words: Words) -> Result<String, ParseError>
        ensures { Reads string_bytes (option_map hex_text (question_answer self D.digest D.BLOCK words.entry)) result }
    {
        let digest = self.digest::<D>(alloc, words)?;
        let mut answer = String::new(alloc);
        push_hex(&mut answer, &digest)?;
        Ok(answer)
    }

    // The digest that words ask for.
    #[tactic(auto, using(crate::proofs::Taken::joined_map))]
    fn digest<D: Digest>(self, alloc: Global, mut words: Words) -> Result<[u8; 32], ParseError>
        ensures { Reads (λ d. d) (question_answer self D.digest D.BLOCK words.entry) result }
    {
        match self {
            Question::Digest => {
                let pieces = decode_words(alloc, words.last_word()?)?;
                Ok(digest_of::<D, _>(&pieces))
            }
            Question::Hmac => {
                let key = decode_array::<32>(alloc, words.next_word()?)?;
                let text = decode_hex(alloc, words.last_word()?)?;
                Ok(hmac::<D>(&key, &text))
            }
            Question::Repeat => {
                let count = parse_number(words.next_word()?, MAX_COUNT).ok_or(
                    ParseError::NotUnderstood,
                )?;
                let piece = decode_hex(alloc, words.last_word()?)?;
                Ok(digest_repeated::<D>(count, &piece))
            }
        }
    }
}
