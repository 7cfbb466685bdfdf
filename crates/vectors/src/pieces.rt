// Bytes in pieces, from hex words to a digest.
ghost use Rattle.std.specs.Prelude.{◌≡◌};
ghost use Rattle.scripts.specs.Reading.{Reads};
ghost use Rattle.vectors.specs.Pieced.{pieces_in, words_pieces, repeated};

use digests::Digest;
use scripts::{ParseError, decode_hex};
use std::alloc::Global;

// The digest of a piece that is taken so many times.
#[tactic(auto, using(crate::proofs::Taken::repeated_more, crate::proofs::Taken::repeated_none))]
pub fn digest_repeated<D: Digest>(count: u32, piece: &[u8]) -> [u8; 32]
    ensures { result ≡ D.digest (repeated count piece.now) }
{
    let mut digest = D::start();
    for _turn in 0..count {
        digest.take(piece);
    }
    digest.end()
}

// The pieces that hex words stand for, if all of them are hex.
pub fn decode_words(alloc: Global, words: &[u8]) -> Result<Vec<Vec<u8>>, ParseError>
    ensures { Reads pieces_in (words_pieces words.now) result }
{
    let mut pieces = Vec::new(alloc);
    for word in words.split(|byte| *byte == b' ') {
        pieces.push(decode_hex(alloc, word)?)?;
    }
    Ok(pieces)
}
