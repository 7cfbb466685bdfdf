// The words and lines of scripts: numbers in decimal, bytes in lower-case hex, and why a text gives no value.
#![tactic(auto)]

mod error;
mod hex;
mod words;

pub use error::ParseError;
pub use hex::{Hex, decode_array, decode_hex, push_hex};
pub use words::{Words, is_silent, parse_number, split_word};
