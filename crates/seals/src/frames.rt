// Images of rows and of the whole, streamed into a digest block by block: none is built in memory.
ghost use Rattle.std.specs.Prelude.{◌≡◌, ◌+◌, ◌≤◌, ◌∷◌, ◌++◌, length, take, drop, cond, Some, None};
ghost use Rattle.digests.specs.Strings.{Bytes};
ghost use Rattle.sheets.specs.Blocks.{blocks_of};
ghost use Rattle.sheets.specs.Calls.{block_at};
ghost use Rattle.seals.specs.Images.{two_bytes, framed, row_image, whole_image, frame_fits};
ghost use Rattle.sheets.specs.Table.{max_bytes};
ghost use Rattle.seals.specs.Excerpts.{image_around};
ghost use Rattle.seals.specs.View.{viewed, Placed};

use answers::{BlockNumber, RowNumber};
use digests::Digest;
use families::family::Family;
use families::row::row_blocks;
use sheets::Sheet;

const ROW: u8 = 1;

const WHOLE: u8 = 2;

// How many bytes a block can have whose length is two bytes.
const MAX_FRAMED: usize = 65_535;

// How long a block's number and length are, in front of its bytes.
pub const FRAME_HEAD: usize = 4;

// Bytes that are offered for a block.
#[derive(Clone, Copy)]
pub(crate) struct Offer<'a> {
    pub(crate) number: BlockNumber,
    pub(crate) bytes: &'a [u8],
}

// The blocks that a call looks at: a sheet's, with offered bytes perhaps in place of one.
#[derive(Clone, Copy)]
pub(crate) struct View<'a> {
    pub(crate) sheet: &'a Sheet,
    pub(crate) offer: Option<Offer<'a>>,
}

impl<'a> View<'a> {
    #[tactic(auto, using(crate::proofs::Framed::offered_here, crate::proofs::Framed::not_offered, crate::proofs::Framed::block_short))]
    fn block(&self, number: BlockNumber) -> &'a [u8]
        requires placed { Placed self.now }
        requires there { (1 ≤ number.0) × (number.0 ≤ length (blocks_of self.now.sheet.now)) }
        ensures value { result.now ≡ block_at (viewed self.now) number.0 }
        ensures short { length result.now ≤ max_bytes }
    {
        match self.offer {
            None => self.sheet.block(number).unwrap(),
            Some(offer) if offer.number == number => offer.bytes,
            Some(_) => self.sheet.block(number).unwrap(),
        }
    }
}

// What stands in front of a block: its number and its length.
fn frame_head(number: BlockNumber, length: usize) -> [u8; FRAME_HEAD]
    requires { length ≤ 65535 }
    ensures { result ≡ two_bytes number.0 ++ two_bytes length }
{
    let [n1, n0] = number.0.to_be_bytes();
    let [l1, l0] = (length as u16).to_be_bytes();
    [n1, n0, l1, l0]
}

// Writes a framed block at a place of a buffer, and answers the place behind it.
#[tactic(auto, using(crate::proofs::Buffer::two_pieces))]
pub(crate) fn put_frame(out: &mut [u8], place: usize, number: BlockNumber, bytes: &[u8]) -> usize
    requires { (length bytes.now ≤ 65535) × (place + 4 + length bytes.now ≤ length out.old) }
    ensures place { result ≡ place + 4 + length bytes.now }
    ensures buffer { out.new ≡ take place out.old ++ (framed number.0 bytes.now ++ drop (place + 4 + length bytes.now) out.old) }
{
    let start = place + FRAME_HEAD;
    let end = start + bytes.len();
    out[place..start].copy_from_slice(&frame_head(number, bytes.len()));
    out[start..end].copy_from_slice(bytes);
    end
}

// As `put_frame`, but asks nothing: nothing is written where the frame does not fit, or the block is too long for one.
#[tactic(auto, unfolding(crate::specs::Images::frame_fits))]
pub fn write_frame(out: &mut [u8], place: usize, number: BlockNumber, bytes: &[u8]) -> Option<usize>
    ensures place { result ≡ cond (frame_fits place (length bytes.now) (length out.old)) (Some (place + 4 + length bytes.now)) None }
    ensures buffer { out.new
        ≡ cond (frame_fits place (length bytes.now) (length out.old)) (take place out.old ++ (framed number.0 bytes.now ++ drop (place + 4 + length bytes.now) out.old)) out.old }
{
    let size = bytes.len();
    if size > MAX_FRAMED || place > out.len() || size + FRAME_HEAD > out.len() - place {
        return None;
    }
    Some(put_frame(out, place, number, bytes))
}

fn take_frame<D: Digest>(digest: &mut D, number: BlockNumber, bytes: &[u8])
    requires { length bytes.now ≤ 65535 }
    ensures { (taken : Bytes) → D.took digest.old taken → D.took digest.new (taken ++ framed number.0 bytes.now) }
{
    digest.take(&frame_head(number, bytes.len()));
    digest.take(bytes);
}

// A digest that has taken what stands in front of a row's blocks.
fn start_row<D: Digest>(row: RowNumber) -> D
    ensures { D.took result (1 ∷ two_bytes row.0) }
{
    let [high, low] = row.0.to_be_bytes();
    let mut digest = D::start();
    digest.take(&[ROW, high, low]);
    digest
}

// The digest of a row's image.
pub(crate) fn row_digest<D: Digest, F: Family>(
    family: &F,
    row: RowNumber,
    blocks: &View,
) -> [u8; 32]
    requires placed { Placed blocks.now }
    requires count { length (blocks_of blocks.now.sheet.now) ≡ (F.shape family.now).blocks }
    ensures { result ≡ D.digest (row_image (F.shape family.now).holds row.0 (viewed blocks.now)) }
{
    let mut digest = start_row::<D>(row);
    for number in row_blocks(family, row) {
        take_frame(&mut digest, number, blocks.block(number));
    }
    digest.end()
}

// The digest of a row's image, put together from an excerpt and the bytes offered for a block, which belong at a place in it.
#[tactic(auto, unfolding(crate::specs::Excerpts::image_around))]
pub(crate) fn digest_around<D: Digest>(
    row: RowNumber,
    offer: &Offer,
    excerpt: &[u8],
    place: usize,
) -> [u8; 32]
    requires { (place ≤ length excerpt.now) × (length offer.now.bytes.now ≤ 65535) }
    ensures { result ≡ D.digest (image_around row.0 offer.now.number.0 offer.now.bytes.now excerpt.now place) }
{
    let mut digest = start_row::<D>(row);
    digest.take(&excerpt[..place]);
    take_frame(&mut digest, offer.number, offer.bytes);
    digest.take(&excerpt[place..]);
    digest.end()
}

// The digest of the whole image.
pub(crate) fn whole_digest<D: Digest>(sheet: &Sheet) -> [u8; 32]
    ensures { result ≡ D.digest (whole_image (blocks_of sheet.now)) }
{
    let [high, low] = sheet.block_count().to_be_bytes();
    let mut digest = D::start();
    digest.take(&[WHOLE, high, low]);
    for (index, bytes) in sheet.blocks().enumerate() {
        take_frame(&mut digest, BlockNumber(index as u16 + 1), bytes);
    }
    digest.end()
}
