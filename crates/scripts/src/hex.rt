// Bytes as lower-case hex, and no bytes as `-`.
ghost use Rattle.std.specs.Prelude.{◌≡◌, ◌++◌, ◌*◌, ◌<◌, ◌≤◌, length, take, Some, IfSome, OnOk, string_bytes, vec_items};
ghost use Rattle.std.specs.Fmt.{WritesOnOk};
ghost use Rattle.scripts.specs.Hex.{hex_value, pair_value, pairs_bytes, hex_bytes, array_of, hex_digit, pair_text, pairs_text, hex_text};
ghost use Rattle.scripts.specs.Reading.{Reads};

use crate::error::ParseError;
use std::alloc::{AllocError, Global};
use std::fmt::Write;
use std::{fmt, str};

// The bytes that a hex word stands for: `-` is no bytes, and any other word has two lower-case digits for each.
#[tactic(auto, using(crate::proofs::HexLemmas::hex_cases))]
pub fn decode_hex(alloc: Global, word: &[u8]) -> Result<Vec<u8>, ParseError>
    ensures { Reads vec_items (hex_bytes word.now) result }
{
    if word == b"-".as_slice() {
        return Ok(Vec::new(alloc));
    }
    if word.is_empty() {
        return Err(ParseError::NotUnderstood);
    }
    decode_pairs(alloc, word)
}

// The bytes that a hex word stands for, if there are so many.
pub fn decode_array<const N: usize>(alloc: Global, word: &[u8]) -> Result<[u8; N], ParseError>
    ensures { Reads (λ bytes. bytes) (array_of N word.now) result }
{
    let bytes = decode_hex(alloc, word)?;
    <[u8; N]>::try_from(bytes.as_slice()).map_err(|_| ParseError::NotUnderstood)
}

fn decode_pairs(alloc: Global, word: &[u8]) -> Result<Vec<u8>, ParseError>
    ensures { Reads vec_items (pairs_bytes word.now) result }
{
    let (pairs, rest) = word.as_chunks::<2>();
    if !rest.is_empty() {
        return Err(ParseError::NotUnderstood);
    }
    let mut bytes = Vec::with_capacity(alloc, pairs.len())?;
    for &[high, low] in pairs {
        let Some(byte) = decode_pair(high, low) else {
            return Err(ParseError::NotUnderstood);
        };
        bytes.push_reserved(byte);
    }
    Ok(bytes)
}

fn decode_pair(high: u8, low: u8) -> Option<u8>
    ensures { result ≡ pair_value high low }
{
    Some(decode_digit(high)? * 16 + decode_digit(low)?)
}

// No `char::to_digit`: it takes upper case.
fn decode_digit(digit: u8) -> Option<u8>
    ensures value { result ≡ hex_value digit }
    ensures bound { IfSome result (λ d. d < 16) }
{
    match digit {
        b'0'..=b'9' => Some(digit - b'0'),
        b'a'..=b'f' => Some(digit - b'a' + 10),
        _ => None,
    }
}

// Bytes that print as hex.
#[derive(Clone, Copy)]
pub struct Hex<'a>(pub &'a [u8]);

impl fmt::Display for Hex<'_> {
    ghost output = { λ h. Some (hex_text h.0.now) };

    fn fmt<W: fmt::Write>(&self, f: &mut fmt::Formatter<W>) -> fmt::Result {
        if self.0.is_empty() {
            return f.write_str("-");
        }
        for piece in self.0.chunks(32) {
            write_piece(f, piece)?;
        }
        Ok(())
    }
}

// A call of the writer costs far more than a digit, so a piece is one call.
fn write_piece<W: fmt::Write>(f: &mut fmt::Formatter<W>, piece: &[u8]) -> fmt::Result
    requires { length piece.now ≤ 32 }
    ensures { WritesOnOk W.write_str_gives f.old result (pairs_text piece.now) f.new }
{
    let digits = encode_piece(piece);
    f.write_str(str::from_utf8(&digits[..2 * piece.len()]).unwrap())
}

// The digits of a piece, and zeros after them.
fn encode_piece(piece: &[u8]) -> [u8; 64]
    requires { length piece.now ≤ 32 }
    ensures { take (2 * length piece.now) result ≡ pairs_text piece.now }
{
    let mut digits = [0; 64];
    for i in 0..piece.len() {
        let [high, low] = encode_pair(piece[i]);
        digits[2 * i] = high;
        digits[2 * i + 1] = low;
    }
    digits
}

fn encode_pair(byte: u8) -> [u8; 2]
    ensures { result ≡ pair_text byte }
{
    [encode_digit(byte / 16), encode_digit(byte % 16)]
}

fn encode_digit(value: u8) -> u8
    requires { value < 16 }
    ensures { result ≡ hex_digit value }
{
    if value < 10 {
        b'0' + value
    } else {
        b'a' - 10 + value
    }
}

// Appends bytes as lower-case hex, or `-` for none. What it appends reads back as the same bytes.
pub fn push_hex(text: &mut String, bytes: &[u8]) -> Result<(), AllocError>
    ensures text { OnOk result (string_bytes text.new ≡ string_bytes text.old ++ hex_text bytes.now) }
    ensures back { hex_bytes (hex_text bytes.now) ≡ Some bytes.now }
{
    write!(text, "{}", Hex(bytes))
}
