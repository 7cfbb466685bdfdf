// A digest by what it means: the bytes taken since the start fix what its state means, and that fixes the answer.
#![tactic(auto)]

ghost use Rattle.std.specs.Prelude.{◌≡◌, ℕ, ◌≤◌, List, [], ◌++◌, length};
ghost use Rattle.std.specs.List.{flat_map};
ghost use Rattle.digests.specs.Strings.{Bytes};

use std::convert::AsSlice;

mod buffered;
mod compare;
mod mac;
mod words;

pub use buffered::{Buffered, Compressor, Numbered};
pub use compare::same_bytes;
pub use mac::hmac;
pub use words::join_words;

pub trait Digest: Sized {
    // The number by which a seal names the digest. No enum: a digest of another crate brings a number of its own.
    const KIND: u8;

    ghost KIND: { ℕ };

    // How many bytes it works on at a time; HMAC fills its key up to as many.
    const BLOCK: usize;

    ghost BLOCK: { ℕ };

    // The answer to all bytes taken.
    ghost digest: { Bytes → Bytes };

    // The state stands for these bytes. A relation, since a state does not tell its bytes.
    ghost took: { Self → Bytes → Type 0 };

    fn start() -> Self
        ensures { took result [] };

    fn take(&mut self, piece: &[u8])
        ensures { (bs : Bytes) → took self.old bs → took self.new (bs ++ piece.now) };

    fn end(self) -> [u8; 32]
        ensures { (bs : Bytes) → took self bs → result ≡ digest bs };

    ghost kind_range: { (1 ≤ KIND) × (KIND ≤ 255) };

    ghost block_range: { (32 ≤ BLOCK) × (BLOCK ≤ 64) };

    ghost thirty_two: { (bs : Bytes) → length (digest bs) ≡ 32 };
}

// The digest of some pieces is that of their joining.
pub fn digest_of<D: Digest, P: AsSlice<u8>>(pieces: &[P]) -> [u8; 32]
    ensures { result ≡ D.digest (flat_map P.items pieces.now) }
{
    let mut digest = D::start();
    for piece in pieces {
        digest.take(piece.as_slice());
    }
    digest.end()
}
