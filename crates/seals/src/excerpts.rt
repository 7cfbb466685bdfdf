// Excerpts: the other blocks of a row that holds a block, framed.
ghost use Rattle.std.specs.Prelude.{◌≡◌, ◌≤◌, true, false, not, ◌++◌, length, drop, MatchOption, IfSome, ◌==◌};
ghost use Rattle.std.specs.Option.{option_map};
ghost use Rattle.std.specs.Result.{result_map_both};
ghost use Rattle.sheets.specs.Blocks.{blocks_of};
ghost use Rattle.sheets.specs.Calls.{block_at, no_block, with_block};
ghost use Rattle.sheets.specs.Table.{max_bytes};
ghost use Rattle.seals.specs.Images.{row_rest};
ghost use Rattle.seals.specs.Scheme.{scheme};
ghost use Rattle.seals.specs.Calls.{same_scheme, passes, rest_blocks, is_excerpt, excerpt_answer, confirm_answer, lent_after};
ghost use Rattle.seals.specs.Excerpts.{behind_frame, OwnPlace};

use crate::accepted::Accepted;
use crate::frames::{FRAME_HEAD, Offer, digest_around, put_frame};
use answers::{BlockNumber, Refusal, RowNumber};
use digests::Digest;
use families::family::Family;
use families::row::row_blocks;
use sheets::{MAX_BYTES, Sheet};

// The bytes of a block that is there.
#[tactic(auto, using(crate::proofs::Framed::block_short))]
fn block_of(sheet: &Sheet, number: BlockNumber) -> &[u8]
    requires { (1 ≤ number.0) × (number.0 ≤ length (blocks_of sheet.now)) }
    ensures value { result.now ≡ block_at (blocks_of sheet.now) number.0 }
    ensures short { length result.now ≤ max_bytes }
{
    sheet.block(number).unwrap()
}

// The length of the other blocks of a row, framed.
pub(crate) fn rest_length<F: Family>(
    family: &F,
    row: RowNumber,
    block: BlockNumber,
    sheet: &Sheet,
) -> usize
    requires { length (blocks_of sheet.now) ≡ (F.shape family.now).blocks }
    ensures { result ≡ length (row_rest (F.shape family.now).holds row.0 block.0 (blocks_of sheet.now)) }
{
    let mut length = 0;
    for number in row_blocks(family, row) {
        if number != block {
            length += FRAME_HEAD + block_of(sheet, number).len();
        }
    }
    length
}

// Writes the other blocks of a row, framed, to the front of a buffer.
fn put_rest<F: Family>(
    family: &F,
    row: RowNumber,
    block: BlockNumber,
    sheet: &Sheet,
    out: &mut [u8],
)
    requires count { length (blocks_of sheet.now) ≡ (F.shape family.now).blocks }
    requires room { length (row_rest (F.shape family.now).holds row.0 block.0 (blocks_of sheet.now)) ≤ length out.old }
    ensures { let rest = row_rest (F.shape family.now).holds row.0 block.0 (blocks_of sheet.now) in out.new ≡ rest ++ drop (length rest) out.old }
{
    let mut place = 0;
    for number in row_blocks(family, row) {
        if number != block {
            place = put_frame(out, place, number, block_of(sheet, number));
        }
    }
}

// What stands behind the frame of a block, if bytes begin with one.
#[tactic(auto, unfolding(crate::specs::Excerpts::behind_frame, crate::specs::Part::word))]
fn skip_frame(number: BlockNumber, bytes: &[u8]) -> Option<&[u8]>
    ensures { option_map (λ rest. rest.now) result ≡ behind_frame number.0 bytes.now }
{
    let [n1, n0, l1, l0, rest @ ..] = bytes else {
        return None;
    };
    let length = usize::from(u16::from_be_bytes([*l1, *l0]));
    if u16::from_be_bytes([*n1, *n0]) != number.0 || length > MAX_BYTES || length > rest.len() {
        return None;
    }
    Some(&rest[length..])
}

// Takes the frames of a row's other blocks from an excerpt. Answers the place where the block's own frame belongs, and what stands behind the last frame.
fn take_apart<'a, F: Family>(
    family: &F,
    row: RowNumber,
    block: BlockNumber,
    excerpt: &'a [u8],
) -> Option<(usize, &'a [u8])>
    requires { (F.shape family.now).holds row.0 block.0 ≡ true }
    ensures exact { MatchOption result
        (is_excerpt (F.shape family.now) block.0 row.0 excerpt.entry.now ≡ false)
        (λ r. is_excerpt (F.shape family.now) block.0 row.0 excerpt.entry.now ≡ (length r.1.now == 0)) }
    ensures place { IfSome result (λ r. length r.1.now ≡ 0 → OwnPlace (F.shape family.now) block.0 row.0 excerpt.entry.now r.0) }
{
    let mut place = 0;
    let mut left = excerpt;
    for number in row_blocks(family, row) {
        if number == block {
            place = excerpt.len() - left.len();
        } else {
            left = skip_frame(number, left)?;
        }
    }
    Some((place, left))
}

// Where a block's own frame belongs in an excerpt of a row's other blocks, if it is exactly one.
fn own_place<F: Family>(
    family: &F,
    row: RowNumber,
    block: BlockNumber,
    excerpt: &[u8],
) -> Option<usize>
    requires { (F.shape family.now).holds row.0 block.0 ≡ true }
    ensures { MatchOption result
        (is_excerpt (F.shape family.now) block.0 row.0 excerpt.now ≡ false)
        (OwnPlace (F.shape family.now) block.0 row.0 excerpt.now) }
{
    let (place, left) = take_apart(family, row, block, excerpt)?;
    left.is_empty().then_some(place)
}

// Whether a block of a sheet with so many has this number.
fn is_block(number: BlockNumber, count: u16) -> bool
    ensures { result ≡ not (no_block count number.0) }
{
    (1..=count).contains(&number.0)
}

impl Accepted<'_> {
    // Writes the other blocks of a row that holds a block, framed, to the front of the buffer, and answers their length.
    #[tactic(auto, using(crate::proofs::Rest::family_count), unfolding(crate::specs::Calls::excerpt_answer))]
    pub fn excerpt<F: Family>(
        &self,
        sheet: &Sheet,
        family: &F,
        block: BlockNumber,
        row: RowNumber,
        out: &mut [u8],
    ) -> Result<usize, Refusal>
        ensures answer { result ≡ result_map_both length (λ e. e) (excerpt_answer (F.shape family.now) self.now.part.now (blocks_of sheet.now) block.0 row.0 (length out.old)) }
        ensures buffer { out.new ≡ lent_after (excerpt_answer (F.shape family.now) self.now.part.now (blocks_of sheet.now) block.0 row.0 (length out.old)) out.old }
    {
        if !self.has_family(family) {
            return Err(Refusal::OtherScheme);
        }
        if !self.has_count(sheet) {
            return Err(Refusal::OtherBlockCount);
        }
        if !is_block(block, sheet.block_count()) {
            return Err(Refusal::NoSuchBlock);
        }
        if !family.holds(row, block) {
            return Err(Refusal::RowLacksBlock);
        }
        let length = rest_length(family, row, block, sheet);
        if out.len() < length {
            return Err(Refusal::NoRoom);
        }
        put_rest(family, row, block, sheet, out);
        Ok(length)
    }

    // Whether a row, put together from an excerpt and the bytes offered for a block, has the digest that was sealed.
    #[tactic(auto, using(crate::proofs::Confirmed::passes_around))]
    fn passes_around<D: Digest, F: Family>(
        &self,
        family: &F,
        row: RowNumber,
        offer: &Offer,
        excerpt: &[u8],
        place: usize,
    ) -> bool
        requires scheme { same_scheme (scheme D.digest D.KIND (F.shape family.now)) self.now.part.now ≡ true }
        requires held { (F.shape family.now).holds row.0 offer.now.number.0 ≡ true }
        requires short { length offer.now.bytes.now ≤ max_bytes }
        requires place { OwnPlace (F.shape family.now) offer.now.number.0 row.0 excerpt.now place }
        ensures { result ≡ passes (scheme D.digest D.KIND (F.shape family.now)) self.now.part.now
            (with_block (rest_blocks (F.shape family.now) offer.now.number.0 row.0 excerpt.now) offer.now.number.0 offer.now.bytes.now) row.0 }
    {
        self.is_row_digest(row, &digest_around::<D>(row, offer, excerpt, place))
    }

    // Without the sheet: yes if a row, rebuilt from the offered bytes of a block and an excerpt of the others, has the digest that was sealed.
    #[tactic(auto, unfolding(crate::specs::Calls::confirm_answer, crate::specs::Calls::confirm_before))]
    pub fn confirm<D: Digest, F: Family>(
        &self,
        family: &F,
        block: BlockNumber,
        row: RowNumber,
        offered: &[u8],
        excerpt: &[u8],
    ) -> Result<(), Refusal>
        ensures { result ≡ confirm_answer (scheme D.digest D.KIND (F.shape family.now)) self.now.part.now block.0 row.0 offered.now excerpt.now }
    {
        if !self.has_scheme::<D, F>(family) {
            return Err(Refusal::OtherScheme);
        }
        if !is_block(block, family.block_count()) {
            return Err(Refusal::NoSuchBlock);
        }
        if offered.len() > MAX_BYTES {
            return Err(Refusal::TooLong);
        }
        if !family.holds(row, block) {
            return Err(Refusal::RowLacksBlock);
        }
        let place = own_place(family, row, block, excerpt).ok_or(Refusal::WrongExcerpt)?;
        let offer = Offer {
            number: block,
            bytes: offered,
        };
        if !self.passes_around::<D, F>(family, row, &offer, excerpt, place) {
            return Err(Refusal::RowDiffers);
        }
        Ok(())
    }
}
