// What lines ask of tag keys.
ghost use Rattle.std.specs.Prelude.{◌≡◌, Some, IfOk, string_bytes};
ghost use Rattle.scripts.specs.Reading.{Reads};
ghost use Rattle.told.specs.Texts.{text_of};
ghost use Rattle.keys.specs.Tag.{tag_says};
ghost use Rattle.told.specs.Algorithms.{digest_by};
ghost use Rattle.vectors.specs.Tags.{signed_answer, signed_text, tag_answer, says_text, inspect_answer};

use answers::Refusal;
use blake2s::Blake2s;
use digests::Digest;
use keys::{Inspector, Sealer, TagInspector, TagKey, sign_next};
use scripts::{Hex, ParseError, Words, decode_array, decode_hex, parse_number};
use sha256::Sha256;
use std::alloc::{AllocError, Global};
use std::fmt;
use told::Algorithm;

// The number that a key drew, the tag under it, and how many numbers were left then.
#[derive(Clone, Copy)]
pub struct Signed {
    number: u64,
    tag: [u8; 32],
    left: u64,
}

impl fmt::Display for Signed {
    ghost output = { λ s. Some (signed_text s) };

    fn fmt<W: fmt::Write>(&self, f: &mut fmt::Formatter<W>) -> fmt::Result {
        let Signed { number, tag, left } = self;
        let tag = Hex(tag);
        write!(f, "tag {number} {tag} {left}")
    }
}

// Makes a key, draws one number and signs a text under it.
pub fn answer_tag(alloc: Global, mut words: Words) -> Result<String, ParseError>
    ensures { Reads string_bytes (tag_answer words.entry) result }
{
    let algorithm = Algorithm::named(words.next_word()?).ok_or(ParseError::NotUnderstood)?;
    let secret = decode_array::<32>(alloc, words.next_word()?)?;
    let name = decode_array::<8>(alloc, words.next_word()?)?;
    let next = parse_number(words.next_word()?, u32::MAX).ok_or(ParseError::NotUnderstood)?;
    let text = decode_hex(alloc, words.last_word()?)?;
    let signed = match algorithm {
        Algorithm::Sha256 => sign::<Sha256>(secret, name, next, &text),
        Algorithm::Blake2s => sign::<Blake2s>(secret, name, next, &text),
    };
    Ok(print_signed(alloc, signed)?)
}

// Says yes or no to a signature. The number is read, and no tag depends on it.
pub fn answer_inspect(alloc: Global, mut words: Words) -> Result<String, ParseError>
    ensures { Reads string_bytes (inspect_answer words.entry) result }
{
    let algorithm = Algorithm::named(words.next_word()?).ok_or(ParseError::NotUnderstood)?;
    let secret = decode_array::<32>(alloc, words.next_word()?)?;
    let number = parse_number(words.next_word()?, u32::MAX).ok_or(ParseError::NotUnderstood)?;
    let text = decode_hex(alloc, words.next_word()?)?;
    let signature = decode_hex(alloc, words.last_word()?)?;
    let says = match algorithm {
        Algorithm::Sha256 => inspect::<Sha256>(secret, number, &text, &signature),
        Algorithm::Blake2s => inspect::<Blake2s>(secret, number, &text, &signature),
    };
    Ok(print_says(alloc, says)?)
}

// The key is made for this one number.
fn sign<D: Digest>(
    secret: [u8; 32],
    name: [u8; 8],
    next: u32,
    text: &[u8],
) -> Result<Signed, Refusal>
    ensures { result ≡ signed_answer D.digest D.BLOCK secret name next text.now }
{
    let mut key = TagKey::<D>::new(secret, name, next)?;
    let number = key.next_number();
    let mut tag = [0; 32];
    let _ = sign_next(&mut key, text, &mut tag)?;
    let left = key.count_left();
    Ok(Signed { number, tag, left })
}

fn print_signed(alloc: Global, signed: Result<Signed, Refusal>) -> Result<String, AllocError>
    ensures { IfOk result (λ s. string_bytes s ≡ text_of signed_text signed) }
{
    match signed {
        Ok(signed) => format!(in alloc; "{signed}"),
        Err(refusal) => format!(in alloc; "{refusal}"),
    }
}

fn inspect<D: Digest>(secret: [u8; 32], number: u32, text: &[u8], signature: &[u8]) -> bool
    ensures { result ≡ tag_says D.digest D.BLOCK secret text.now signature.now }
{
    TagInspector::<D>::new(secret).inspect(number, text, signature)
}

pub fn print_says(alloc: Global, says: bool) -> Result<String, AllocError>
    ensures { IfOk result (λ s. string_bytes s ≡ says_text says) }
{
    String::from_str(alloc, if says { "yes" } else { "no" })
}
