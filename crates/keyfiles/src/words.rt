// A key by its words, and the key that they make.
ghost use Rattle.std.specs.Prelude.{◌≡◌};
ghost use Rattle.std.specs.Result.{result_map_both};
ghost use Rattle.scripts.specs.Reading.{Reads};
ghost use Rattle.keyfiles.specs.declared.words.KeyWords.TheVariants as key_words;
ghost use Rattle.keyfiles.specs.Words.{key_kind_of, tag_told, lms_told, key_by, key_told};
ghost use Rattle.keyfiles.specs.Making.{held, key_answer};

use crate::key::AnyKey;
use answers::Refusal;
use keys::TagKey;
use lms::LmsKey;
use scripts::{ParseError, Words, decode_array, parse_number};
use std::alloc::Global;
use told::Algorithm;

// A tag key by its words: the digest, the secret, the name and the next number.
#[derive(Clone, Copy)]
pub struct TagWords {
    pub digest: Algorithm,
    pub secret: [u8; 32],
    pub name: [u8; 8],
    pub next: u32,
}

// An LMS key: the identifier, the seed and the next number.
#[derive(Clone, Copy)]
pub struct LmsWords {
    pub id: [u8; 16],
    pub seed: [u8; 32],
    pub next: u32,
}

// A key by its words. All words are read before it is made, so that a bad word shows even where the key is refused.
#[derive(Clone, Copy)]
pub enum KeyWords {
    Tag(TagWords),
    Lms(LmsWords),
}

// The first word of a key. Apart from the key, since the definition of what words tell goes by it.
#[derive(Clone, Copy)]
pub(crate) enum KeyKind {
    Tag,
    Lms,
}

impl KeyWords {
    // The key that all the words left tell.
    pub fn parse(alloc: Global, mut words: Words) -> Result<KeyWords, ParseError>
        ensures { Reads (λ k. k) (key_told words.entry) result }
    {
        let word = words.next_word()?;
        let kind = KeyKind::named(word).ok_or(ParseError::NotUnderstood)?;
        kind.parse_rest(alloc, words)
    }

    pub fn make(self) -> Result<AnyKey, Refusal>
        ensures { result_map_both held (λ e. e) result ≡ key_answer self }
    {
        match self {
            KeyWords::Tag(words) => make_tag_key(words),
            KeyWords::Lms(words) => make_lms_key(words),
        }
    }
}

impl KeyKind {
    #[tactic(auto, using(scripts::proofs::TableLemmas::row_read))]
    pub(crate) fn named(word: &[u8]) -> Option<KeyKind>
        ensures { result ≡ key_kind_of word.now }
    {
        match word {
            b"tag" => Some(KeyKind::Tag),
            b"lms" => Some(KeyKind::Lms),
            _ => None,
        }
    }

    // Reads the words behind the kind.
    pub(crate) fn parse_rest(self, alloc: Global, words: Words) -> Result<KeyWords, ParseError>
        ensures { Reads (λ k. k) (key_by self words.entry) result }
    {
        match self {
            KeyKind::Tag => parse_tag(alloc, words),
            KeyKind::Lms => parse_lms(alloc, words),
        }
    }
}

fn parse_tag(alloc: Global, mut words: Words) -> Result<KeyWords, ParseError>
    ensures { Reads (λ k. k) (tag_told words.entry) result }
{
    let digest = Algorithm::named(words.next_word()?).ok_or(ParseError::NotUnderstood)?;
    let secret = decode_array::<32>(alloc, words.next_word()?)?;
    let name = decode_array::<8>(alloc, words.next_word()?)?;
    let next = parse_number(words.last_word()?, u32::MAX).ok_or(ParseError::NotUnderstood)?;
    Ok(KeyWords::Tag(TagWords {
        digest,
        secret,
        name,
        next,
    }))
}

fn parse_lms(alloc: Global, mut words: Words) -> Result<KeyWords, ParseError>
    ensures { Reads (λ k. k) (lms_told words.entry) result }
{
    let id = decode_array::<16>(alloc, words.next_word()?)?;
    let seed = decode_array::<32>(alloc, words.next_word()?)?;
    let next = parse_number(words.last_word()?, u32::MAX).ok_or(ParseError::NotUnderstood)?;
    Ok(KeyWords::Lms(LmsWords { id, seed, next }))
}

fn make_tag_key(words: TagWords) -> Result<AnyKey, Refusal>
    ensures { result_map_both held (λ e. e) result ≡ key_answer (key_words.Tag words) }
{
    let TagWords {
        digest,
        secret,
        name,
        next,
    } = words;
    match digest {
        Algorithm::Sha256 => Ok(AnyKey::TagSha256(TagKey::new(secret, name, next)?)),
        Algorithm::Blake2s => Ok(AnyKey::TagBlake2s(TagKey::new(secret, name, next)?)),
    }
}

fn make_lms_key(words: LmsWords) -> Result<AnyKey, Refusal>
    ensures { result_map_both held (λ e. e) result ≡ key_answer (key_words.Lms words) }
{
    let LmsWords { id, seed, next } = words;
    Ok(AnyKey::Lms(LmsKey::new(id, seed, next)?))
}
