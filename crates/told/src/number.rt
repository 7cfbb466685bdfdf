// The numbers of families, as words.
ghost use Rattle.std.specs.Prelude.{◌≡◌};
ghost use Rattle.std.specs.Option.{ok_or};
ghost use Rattle.scripts.specs.declared.error.ParseError.TheVariants.{NotUnderstood};
ghost use Rattle.scripts.specs.Words.{number_of};

use scripts::{ParseError, parse_number};

// The number of a block or a row, or a count of them.
pub fn parse_count(word: &[u8]) -> Result<u16, ParseError>
    ensures { result ≡ ok_or (number_of word.now 65535) NotUnderstood }
{
    let number = parse_number(word, u32::from(u16::MAX)).ok_or(ParseError::NotUnderstood)?;
    Ok(number as u16)
}

// The q or k of a polynomial family.
pub(crate) fn parse_small(word: &[u8]) -> Result<u8, ParseError>
    ensures { result ≡ ok_or (number_of word.now 255) NotUnderstood }
{
    let number = parse_number(word, u32::from(u8::MAX)).ok_or(ParseError::NotUnderstood)?;
    Ok(number as u8)
}
