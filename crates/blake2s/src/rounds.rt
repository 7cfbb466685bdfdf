// The rounds of the compression function.
ghost use Rattle.std.specs.Prelude.{◌≡◌, ◌+◌, ◌%◌, ◌<◌, [], map, slice_index, slice_index_or};
ghost use Rattle.blake2s.specs.Blake2s.{rotr, word, sigma, round};
ghost use Rattle.blake2s.specs.States.{listed, half_mixed, scheduled_words, slanted};

use std::simd::prelude::*;

static SIGMA: [[u8; 16]; 10] = [
    [0, 1, 2, 3, 4, 5, 6, 7, 8, 9, 10, 11, 12, 13, 14, 15],
    [14, 10, 4, 8, 9, 15, 13, 6, 1, 12, 0, 2, 11, 7, 5, 3],
    [11, 8, 12, 0, 5, 2, 15, 13, 10, 14, 3, 6, 7, 1, 9, 4],
    [7, 9, 3, 1, 13, 12, 11, 14, 2, 6, 5, 10, 4, 0, 15, 8],
    [9, 0, 5, 7, 2, 4, 10, 15, 14, 1, 11, 12, 6, 8, 3, 13],
    [2, 12, 6, 10, 0, 11, 8, 3, 4, 13, 7, 5, 15, 14, 1, 9],
    [12, 5, 1, 15, 14, 13, 4, 10, 0, 7, 6, 3, 9, 2, 8, 11],
    [13, 11, 7, 14, 12, 1, 3, 9, 5, 0, 15, 4, 8, 6, 2, 10],
    [6, 15, 14, 9, 11, 3, 0, 8, 12, 2, 13, 7, 1, 4, 10, 5],
    [10, 2, 8, 4, 7, 6, 1, 5, 15, 11, 9, 14, 3, 12, 13, 0],
];

// The work vector by rows of four words.
#[derive(Clone, Copy)]
pub struct Rows {
    pub a: u32x4,
    pub b: u32x4,
    pub c: u32x4,
    pub d: u32x4,
}

// Each word turned right by N. SHA-256 has its own: one of `digests` would be public, and ask its callers for the range.
fn turned<const N: u32>(x: u32x4) -> u32x4
    requires { (0 < N) × (N < 32) }
    ensures { result ≡ map (λ w. rotr w N) x }
{
    (x >> u32x4::splat(N)) | (x << u32x4::splat(32 - N))
}

// SHA-256 has its own, highest byte first: one for both would take the order of bytes as a function, and be public.
fn word_at(block: &[u8; 64], i: usize) -> u32
    requires { i < 16 }
    ensures { result ≡ word block.now i }
{
    u32::from_le_bytes([
        block[4 * i],
        block[4 * i + 1],
        block[4 * i + 2],
        block[4 * i + 3],
    ])
}

// Message word k of round R. The remainder is the RFC's, and makes every R a round's number.
fn scheduled<const R: usize>(block: &[u8; 64], k: usize) -> u32
    requires { k < 16 }
    ensures { result ≡ word block.now (slice_index (slice_index_or sigma (R % 10) []) k) }
{
    word_at(block, usize::from(SIGMA[R % 10][k]))
}

// Every other message word of round R from word k on.
fn words<const R: usize>(block: &[u8; 64], k: usize) -> u32x4
    requires { k < 10 }
    ensures { result ≡ scheduled_words block.now (slice_index_or sigma (R % 10) []) k }
{
    u32x4::from_array([
        scheduled::<R>(block, k),
        scheduled::<R>(block, k + 2),
        scheduled::<R>(block, k + 4),
        scheduled::<R>(block, k + 6),
    ])
}

// Four lines of the mixing, at four columns side by side. No type says the range of a const parameter.
#[inline(always)]
fn half<const P: u32, const Q: u32>(v: Rows, x: u32x4) -> Rows
    requires p_range { (0 < P) × (P < 32) }
    requires q_range { (0 < Q) × (Q < 32) }
    ensures { result ≡ half_mixed P Q v x }
{
    let a = v.a + v.b + x;
    let d = turned::<P>(v.d ^ a);
    let c = v.c + d;
    let b = turned::<Q>(v.b ^ c);
    Rows { a, b, c, d }
}

// The four mixings of columns, with two message words for a column.
#[inline(always)]
fn mix(v: Rows, x: u32x4, y: u32x4) -> Rows
    ensures { result ≡ half_mixed 8 7 (half_mixed 16 12 v x) y }
{
    half::<8, 7>(half::<16, 12>(v, x), y)
}

// The diagonals in the place of the columns.
fn slant(v: Rows) -> Rows
    ensures { result ≡ slanted v }
{
    Rows {
        a: v.a,
        b: v.b.shuffle(v.b, [1, 2, 3, 0]),
        c: v.c.shuffle(v.c, [2, 3, 0, 1]),
        d: v.d.shuffle(v.d, [3, 0, 1, 2]),
    }
}

// Round R: the columns, then the diagonals. Four slants are none, so three of them undo the first.
#[inline(always)]
pub fn turn<const R: usize>(v: Rows, block: &[u8; 64]) -> Rows
    ensures { listed result ≡ round block.now (listed v) (slice_index_or sigma (R % 10) []) }
{
    let v = mix(v, words::<R>(block, 0), words::<R>(block, 1));
    let v = mix(slant(v), words::<R>(block, 8), words::<R>(block, 9));
    slant(slant(slant(v)))
}
