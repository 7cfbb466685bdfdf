// Bytes that come in pieces of any length, handed on in blocks of 64.
ghost use Rattle.std.specs.Prelude.{◌≡◌, ℕ, ◌+◌, ◌≤◌, ◌⊎◌, [], ◌++◌, length, take};
ghost use Rattle.std.specs.List.{flat_map};
ghost use Rattle.std.proofs.Common.{rules};
ghost use Rattle.digests.specs.Strings.{Bytes};
ghost use Rattle.digests.specs.Took.{Took};

use crate::Digest;

// The part of a digest that works on whole blocks: it absorbs one after the other, and finishes with a last piece of at most one block.
// Two members are a digest's too: a trait above both would be a third for these alone.
pub trait Compressor: Sized {
    // The answer to all bytes.
    ghost digest: { Bytes → Bytes };

    // The state stands for these bytes, which came in whole blocks.
    ghost absorbed: { Self → Bytes → Type 0 };

    fn begin() -> Self
        ensures { absorbed result [] };

    fn absorb(&mut self, block: &[u8; 64])
        ensures { (bs : Bytes) → absorbed self.old bs → absorbed self.new (bs ++ block.now) };

    // The last piece is empty only where nothing was absorbed: some digests treat the last block otherwise than those before it.
    // That it is short is a requires and no type: one would be made in one place, and opened at once.
    fn finish(self, last: &[u8]) -> [u8; 32]
        requires { length last.now ≤ 64 }
        ensures { (bs : Bytes) → absorbed self bs → (1 ≤ length last.now) ⊎ (bs ≡ []) → result ≡ digest (bs ++ last.now) };

    ghost thirty_two: { (bs : Bytes) → length (digest bs) ≡ 32 };
}

// What a seal names by a number. Apart from `Compressor`, so that bytes are buffered for one that no seal names, too.
pub trait Numbered {
    const KIND: u8;

    ghost KIND: { ℕ };

    ghost kind_range: { (1 ≤ KIND) × (KIND ≤ 255) };
}

// A compressor with the bytes that it has not absorbed yet. A full block waits until more bytes come, since it may be the last.
// An array beside its count, and no `ArrayVec`: a compressor takes a block as an array, which that one gives only by a conversion and an `unwrap`.
pub struct Buffered<C> {
    inner: C,
    held: [u8; 64],
    count: usize,
    ghost within: { count ≤ 64 },
}

impl<C: Compressor> Buffered<C> {
    pub fn start() -> Buffered<C>
        ensures { Took C.absorbed result.inner (take result.count result.held) [] }
    {
        Buffered {
            inner: C::begin(),
            held: [0; 64],
            count: 0,
        }
    }

    pub fn take(&mut self, piece: &[u8])
        ensures { (bs : Bytes) → Took C.absorbed self.old.inner (take self.old.count self.old.held) bs
            → Took C.absorbed self.new.inner (take self.new.count self.new.held) (bs ++ piece.now) }
    {
        let room = 64 - self.count;
        if piece.len() <= room {
            hold(&mut self.held, self.count, piece);
            self.count += piece.len();
            return;
        }
        let (first, rest) = piece.split_at(room);
        hold(&mut self.held, self.count, first);
        self.inner.absorb(&self.held);
        let (blocks, last) = split_blocks(rest);
        for block in blocks {
            self.inner.absorb(block);
        }
        hold(&mut self.held, 0, last);
        self.count = last.len();
    }

    pub fn end(self) -> [u8; 32]
        ensures { (bs : Bytes) → Took C.absorbed self.inner (take self.count self.held) bs → result ≡ C.digest bs }
    {
        let Buffered { inner, held, count } = self;
        inner.finish(&held[..count])
    }
}

impl<C: Compressor + Numbered> Digest for Buffered<C> {
    const KIND: u8 = C::KIND;

    ghost KIND = { C.KIND };

    const BLOCK: usize = 64;

    ghost BLOCK = { 64 };

    ghost digest = { C.digest };

    ghost took = { λ b bs. Took C.absorbed b.inner (take b.count b.held) bs };

    ghost kind_range = { C.kind_range };

    ghost block_range = { Prim.search rules };

    ghost thirty_two = { C.thirty_two };

    fn start() -> Buffered<C> {
        Buffered::start()
    }

    fn take(&mut self, piece: &[u8]) {
        self.take(piece);
    }

    fn end(self) -> [u8; 32] {
        self.end()
    }
}

// Puts a piece behind the bytes held.
fn hold(held: &mut [u8; 64], count: usize, piece: &[u8])
    requires { count + length piece.now ≤ 64 }
    ensures behind { take (count + length piece.now) held.new ≡ take count held.old ++ piece.now }
    ensures long { length held.new ≡ 64 }
{
    held[count..count + piece.len()].copy_from_slice(piece);
}

// The blocks of a string but for its last 1 to 64 bytes, and these.
#[tactic(auto, using(crate::proofs::Held::flat_chunks))]
fn split_blocks(bytes: &[u8]) -> (&[[u8; 64]], &[u8])
    requires { 1 ≤ length bytes.now }
    ensures joined { flat_map (λ b. b) result.0.now ++ result.1.now ≡ bytes.now }
    ensures some { 1 ≤ length result.1.now }
    ensures short { length result.1.now ≤ 64 }
{
    let (front, last) = bytes.split_at((bytes.len() - 1) / 64 * 64);
    (front.as_chunks::<64>().0, last)
}
