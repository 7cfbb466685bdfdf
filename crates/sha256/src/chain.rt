// The hash value over whole blocks, and the padding of the last bytes.
ghost use Rattle.std.specs.Prelude.{◌≡◌, ◌+◌, ◌-◌, ◌*◌, ◌/◌, ◌%◌, ◌^◌, ◌≤◌, [], ◌∷◌, ◌++◌, length, replicate};
ghost use Rattle.sha256.specs.Absorbed.{Absorbed};
ghost use Rattle.sha256.specs.Sha256.{initial, compressed, u64_bytes, padding, hashed, state_bytes, sha256_of};
ghost use Rattle.sha256.specs.Hashed.{kind_known, length_sha256_of};

use crate::block::compress;
use crate::state::State;
use digests::{Compressor, Numbered, join_words};

// A hash value, and how many bytes went into it, modulo 2^64.
pub struct Chain {
    state: State,
    count: u64,
}

impl Numbered for Chain {
    const KIND: u8 = 1;

    ghost KIND = { 1 };

    ghost kind_range = { kind_known };
}

impl Compressor for Chain {
    ghost digest = { sha256_of };

    ghost absorbed = { Absorbed };

    ghost thirty_two = { length_sha256_of };

    #[tactic(auto, unfolding(crate::specs::Sha256::hashed))]
    fn begin() -> Chain {
        Chain {
            state: initial_state(),
            count: 0,
        }
    }

    fn absorb(&mut self, block: &[u8; 64]) {
        self.step(block);
    }

    fn finish(self, last: &[u8]) -> [u8; 32] {
        let Chain { state, count } = self;
        // The cast stays: no `From` leads from `usize` to `u64`.
        let length = count.wrapping_add(last.len() as u64);
        big_endian(last_blocks(state, last, length))
    }
}

// Apart from `absorb`, whose clause speaks of all bytes so far.
impl Chain {
    fn step(&mut self, block: &[u8; 64])
        ensures counted { self.new.count ≡ (self.old.count + 64) % 2 ^ 64 }
        ensures value { self.new.state ≡ compressed self.old.state block.now }
    {
        self.state = compress(self.state, block);
        self.count = self.count.wrapping_add(64);
    }
}

// BLAKE2s starts with the same numbers: each standard names them itself, and neither crate rests on the other.
fn initial_state() -> State
    ensures { result ≡ initial }
{
    State {
        a: 0x6a09e667,
        b: 0xbb67ae85,
        c: 0x3c6ef372,
        d: 0xa54ff53a,
        e: 0x510e527f,
        f: 0x9b05688c,
        g: 0x1f83d9ab,
        h: 0x5be0cd19,
    }
}

// The last bytes of a message of some length, padded to one block or two. `Compressor::finish` says why their bound is no type.
fn last_blocks(state: State, last: &[u8], message: u64) -> State
    requires { length last.now ≤ 64 }
    ensures { message % 64 ≡ length last.now % 64 → result ≡ hashed (length (last.now ++ padding message) / 64) (last.now ++ padding message) state }
{
    if last.len() < 56 {
        compress_all(state, &padded::<64>(last, message))
    } else {
        compress_all(state, &padded::<128>(last, message))
    }
}

// The hash value after the whole blocks of some bytes.
fn compress_all(state: State, bytes: &[u8]) -> State
    ensures { result ≡ hashed (length bytes.now / 64) bytes.now state }
{
    bytes
        .as_chunks::<64>()
        .0
        .iter()
        .fold(state, |s, block| compress(s, block))
}

// The last bytes of a message of some length, padded to N bytes.
fn padded<const N: usize>(last: &[u8], message: u64) -> [u8; N]
    requires { length last.now + 9 ≤ N }
    ensures { result ≡ last.now ++ (0x80 ∷ (replicate (N - 9 - length last.now) 0 ++ u64_bytes (8 * message % 2 ^ 64))) }
{
    let mut block = [0; N];
    let bytes = &mut block[..];
    bytes[..last.len()].copy_from_slice(last);
    bytes[last.len()] = 0x80;
    bytes[N - 8..].copy_from_slice(&message.wrapping_mul(8).to_be_bytes());
    block
}

// The eight words, highest byte first.
fn big_endian(s: State) -> [u8; 32]
    ensures { result ≡ state_bytes s }
{
    join_words([s.a, s.b, s.c, s.d, s.e, s.f, s.g, s.h].map(u32::to_be_bytes))
}
