// The compression function F.
ghost use Rattle.std.specs.Prelude.{◌≡◌};
ghost use Rattle.blake2s.specs.Blake2s.{work, fed, compressed};
ghost use Rattle.blake2s.specs.States.{listed};

use crate::rounds::{Rows, turn};
use std::simd::prelude::*;

// The numbers are those that SHA-256 starts with. Each standard names them itself, and neither crate rests on the other.
pub const IV: [u32; 8] = [
    0x6a09_e667,
    0xbb67_ae85,
    0x3c6e_f372,
    0xa54f_f53a,
    0x510e_527f,
    0x9b05_688c,
    0x1f83_d9ab,
    0x5be0_cd19,
];

pub fn compress(h: &mut [u32; 8], block: &[u8; 64], t: u64, last: bool)
    ensures { h.new ≡ compressed h.old block.now t last }
{
    let v = begin(h, t, last);
    // Ten calls and no loop over SIGMA, which measured a fifth slower: the numbers of the words are constants this way.
    let v = turn::<0>(v, block);
    let v = turn::<1>(v, block);
    let v = turn::<2>(v, block);
    let v = turn::<3>(v, block);
    let v = turn::<4>(v, block);
    let v = turn::<5>(v, block);
    let v = turn::<6>(v, block);
    let v = turn::<7>(v, block);
    let v = turn::<8>(v, block);
    let v = turn::<9>(v, block);
    feed(h, v);
}

#[tactic(auto, using(crate::proofs::Begun::begun))]
fn begin(h: &[u32; 8], t: u64, last: bool) -> Rows
    ensures { listed result ≡ work h.now t last }
{
    let low = (t % 0x1_0000_0000) as u32;
    let high = (t / 0x1_0000_0000) as u32;
    let flag = if last { 0xffff_ffff } else { 0 };
    Rows {
        a: u32x4::from_array([h[0], h[1], h[2], h[3]]),
        b: u32x4::from_array([h[4], h[5], h[6], h[7]]),
        c: u32x4::from_array([IV[0], IV[1], IV[2], IV[3]]),
        d: u32x4::from_array([IV[4] ^ low, IV[5] ^ high, IV[6] ^ flag, IV[7]]),
    }
}

fn feed(h: &mut [u32; 8], v: Rows)
    ensures { h.new ≡ fed h.old (listed v) }
{
    let [h0, h1, h2, h3, h4, h5, h6, h7] = *h;
    let [a0, a1, a2, a3] = (u32x4::from_array([h0, h1, h2, h3]) ^ v.a ^ v.c).to_array();
    let [b0, b1, b2, b3] = (u32x4::from_array([h4, h5, h6, h7]) ^ v.b ^ v.d).to_array();
    *h = [a0, a1, a2, a3, b0, b1, b2, b3];
}
