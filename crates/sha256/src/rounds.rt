// The rounds of a block.
ghost use Rattle.std.specs.Prelude.{◌≡◌, ◌<◌, ◌++◌, bit_xor};
ghost use Rattle.std.specs.Simd.Lanes.{zip2};
ghost use Rattle.sha256.specs.Parts.{summed_round};
ghost use Rattle.sha256.specs.Sha256.{plus, rotr, Ch, Maj, rounds};

use crate::schedule::Words;
use crate::state::State;
use std::simd::prelude::*;

// Three rotations to the right: Σ0 and Σ1 of the standard. No type says that a const parameter lies from 1 to 31.
fn big<const I: u32, const J: u32, const K: u32>(x: u32) -> u32
    requires i_range { (0 < I) × (I < 32) }
    requires j_range { (0 < J) × (J < 32) }
    requires k_range { (0 < K) × (K < 32) }
    ensures { result ≡ bit_xor (bit_xor (rotr I x) (rotr J x)) (rotr K x) }
{
    x.rotate_right(I) ^ x.rotate_right(J) ^ x.rotate_right(K)
}

// The bits of y where x has a one, and those of z elsewhere, with one operation fewer than the standard writes.
#[tactic(auto, using(crate::proofs::Choice::chosen))]
fn choose(x: u32, y: u32, z: u32) -> u32
    ensures { result ≡ Ch x y z }
{
    z ^ (x & (y ^ z))
}

// The bits that two of three have. Of `x ^ y` and `y ^ z` each round makes one, since the next has it as the other.
#[tactic(auto, using(crate::proofs::Choice::most))]
fn majority(x: u32, y: u32, z: u32) -> u32
    ensures { result ≡ Maj x y z }
{
    y ^ ((x ^ y) & (y ^ z))
}

// One round, with the sum of its constant and its word.
#[tactic(auto, unfolding(crate::specs::Parts::summed_round))]
#[inline(always)]
fn round(s: State, kw: u32) -> State
    ensures { result ≡ summed_round s kw }
{
    let t1 = s
        .h
        .wrapping_add(big::<6, 11, 25>(s.e))
        .wrapping_add(choose(s.e, s.f, s.g))
        .wrapping_add(kw);
    let t2 = big::<2, 13, 22>(s.a).wrapping_add(majority(s.a, s.b, s.c));
    State {
        a: t1.wrapping_add(t2),
        b: s.a,
        c: s.b,
        d: s.c,
        e: s.d.wrapping_add(t1),
        f: s.e,
        g: s.f,
        h: s.g,
    }
}

// Four rounds, with their words and constants.
#[inline(always)]
#[tactic(auto, using(crate::proofs::Summed::four_summed))]
fn four_rounds(s: State, w: u32x4, k: [u32; 4]) -> State
    ensures { result ≡ rounds k w s }
{
    let kw = sums(w, k);
    let s = round(s, kw[0]);
    let s = round(s, kw[1]);
    let s = round(s, kw[2]);
    round(s, kw[3])
}

fn sums(w: u32x4, k: [u32; 4]) -> [u32; 4]
    ensures { result ≡ zip2 plus w k }
{
    (w + u32x4::from_array(k)).to_array()
}

// Sixteen rounds, with their words and constants. The constants come in four rows: the clause would have to flatten an array of these.
#[inline(always)]
#[tactic(auto, using(crate::proofs::Summed::sixteen))]
pub fn sixteen_rounds(
    s: State,
    w: Words,
    k0: [u32; 4],
    k1: [u32; 4],
    k2: [u32; 4],
    k3: [u32; 4],
) -> State
    ensures { result ≡ rounds (k0 ++ (k1 ++ (k2 ++ k3))) (w.0 ++ (w.1 ++ (w.2 ++ w.3))) s }
{
    let s = four_rounds(s, w.0, k0);
    let s = four_rounds(s, w.1, k1);
    let s = four_rounds(s, w.2, k2);
    four_rounds(s, w.3, k3)
}
