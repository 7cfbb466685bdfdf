// The message schedule, four words at a time.
ghost use Rattle.std.specs.Prelude.{◌≡◌, ◌<◌, ◌++◌, map, bit_xor};
ghost use Rattle.sha256.specs.Parts.{four_more, sixteen_more};
ghost use Rattle.sha256.specs.Sha256.{rotr, shr};

use std::simd::prelude::*;

// Sixteen words in their order, four to a vector.
#[derive(Clone, Copy)]
pub struct Words(pub u32x4, pub u32x4, pub u32x4, pub u32x4);

// The sixteen words that follow sixteen.
#[tactic(auto, using(crate::proofs::Extended::by_fours))]
pub fn next_sixteen(w: Words) -> Words
    ensures { result.0 ++ (result.1 ++ (result.2 ++ result.3)) ≡ sixteen_more (w.0 ++ (w.1 ++ (w.2 ++ w.3))) }
{
    let x0 = next_four(w);
    let x1 = next_four(Words(w.1, w.2, w.3, x0));
    let x2 = next_four(Words(w.2, w.3, x0, x1));
    let x3 = next_four(Words(w.3, x0, x1, x2));
    Words(x0, x1, x2, x3)
}

// The four words that follow sixteen. The last two need the first two, so these come first, with nothing added to the others.
fn next_four(w: Words) -> u32x4
    ensures { result ≡ four_more (w.0 ++ (w.1 ++ (w.2 ++ w.3))) }
{
    let none = u32x4::splat(0);
    let sums = w.0
        + small::<7, 18, 3>(w.0.shuffle(w.1, [1, 2, 3, 4]))
        + w.2.shuffle(w.3, [1, 2, 3, 4]);
    let low = sums + small::<17, 19, 10>(w.3.shuffle(none, [2, 3, 4, 5]));
    low + small::<17, 19, 10>(none.shuffle(low, [0, 1, 4, 5]))
}

// Two rotations and a shift to the right, in each word: σ0 and σ1 of the standard. No type says the range of a const parameter.
fn small<const I: u32, const J: u32, const K: u32>(x: u32x4) -> u32x4
    requires i_range { (0 < I) × (I < 32) }
    requires j_range { (0 < J) × (J < 32) }
    requires k_bound { K < 32 }
    ensures { result ≡ map (λ w. bit_xor (bit_xor (rotr I w) (rotr J w)) (shr K w)) x }
{
    rotated::<I>(x) ^ rotated::<J>(x) ^ (x >> u32x4::splat(K))
}

// Each word rotated to the right. BLAKE2s has its own: one of `digests` would be public, and ask its callers for the range.
fn rotated<const N: u32>(x: u32x4) -> u32x4
    requires { (0 < N) × (N < 32) }
    ensures { result ≡ map (rotr N) x }
{
    (x >> u32x4::splat(N)) | (x << u32x4::splat(32 - N))
}
