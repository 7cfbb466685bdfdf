// Reading a seal part. Its places are read here and nowhere else.
ghost use Rattle.std.specs.Prelude.{◌≡◌, ◌+◌, ◌*◌, ◌≤◌, cond, Some, None, ◌&&◌, length, ◌==◌, nat_lt, slice_index};
ghost use Rattle.seals.specs.Part.{word, to_512, is_seal_part, seal_number, row_digest, whole_digest, text_length, signed_text, signature_of, part_blocks, part_strength, part_rows, part_family_kind, part_q, part_k, part_digest_kind, part_sealer_kind};
ghost use Rattle.seals.specs.Calls.{same_family};

use answers::RowNumber;
use families::family::Family;

// The bytes before the digests.
pub(crate) const HEAD: usize = 16;

pub(crate) const DIGEST: usize = 32;

// The fewest bytes that a seal part has besides its rows and its signature.
const LEAST: usize = 50;

// The two bytes at a place, as a number.
#[tactic(auto, unfolding(crate::specs::Part::word))]
fn read_word(bytes: &[u8], place: usize) -> u16
    requires { place + 2 ≤ length bytes.now }
    ensures { result ≡ word bytes.now place }
{
    u16::from_be_bytes([bytes[place], bytes[place + 1]])
}

#[tactic(auto, unfolding(crate::specs::Part::seal_number, crate::specs::Part::word))]
pub(crate) fn read_number(part: &[u8]) -> u32
    requires { 16 ≤ length part.now }
    ensures { result ≡ seal_number part.now }
{
    u32::from_be_bytes([part[12], part[13], part[14], part[15]])
}

// How many blocks were sealed.
pub(crate) fn count_of(part: &[u8]) -> u16
    requires { 16 ≤ length part.now }
    ensures { result ≡ part_blocks part.now }
{
    read_word(part, 0)
}

pub(crate) fn family_kind_of(part: &[u8]) -> u8
    requires { 16 ≤ length part.now }
    ensures { result ≡ part_family_kind part.now }
{
    part[2]
}

pub(crate) fn q_of(part: &[u8]) -> u8
    requires { 16 ≤ length part.now }
    ensures { result ≡ part_q part.now }
{
    part[3]
}

pub(crate) fn k_of(part: &[u8]) -> u8
    requires { 16 ≤ length part.now }
    ensures { result ≡ part_k part.now }
{
    part[4]
}

pub(crate) fn digest_kind_of(part: &[u8]) -> u8
    requires { 16 ≤ length part.now }
    ensures { result ≡ part_digest_kind part.now }
{
    part[5]
}

pub(crate) fn sealer_kind_of(part: &[u8]) -> u8
    requires { 16 ≤ length part.now }
    ensures { result ≡ part_sealer_kind part.now }
{
    part[6]
}

pub(crate) fn strength_of(part: &[u8]) -> u16
    requires { 16 ≤ length part.now }
    ensures { result ≡ part_strength part.now }
{
    read_word(part, 8)
}

pub(crate) fn rows_of(part: &[u8]) -> u16
    requires { 16 ≤ length part.now }
    ensures { result ≡ part_rows part.now }
{
    read_word(part, 10)
}

// Where the signed text ends.
fn text_end(part: &[u8]) -> usize
    requires { 16 ≤ length part.now }
    ensures { result ≡ text_length part.now }
{
    HEAD + DIGEST * (usize::from(rows_of(part)) + 1)
}

// The signed text.
#[tactic(auto, unfolding(crate::specs::Part::signed_text))]
pub(crate) fn text_of(part: &[u8]) -> &[u8]
    requires { text_length part.now ≤ length part.now }
    ensures { result.now ≡ signed_text part.now }
{
    &part[..text_end(part)]
}

// The signature. Two bytes between the text and it say how long it is.
#[tactic(auto, unfolding(crate::specs::Part::signature_of))]
pub(crate) fn signature_of(part: &[u8]) -> &[u8]
    requires { text_length part.now + 2 ≤ length part.now }
    ensures { result.now ≡ signature_of part.now }
{
    &part[text_end(part) + 2..]
}

// Whether bytes have the form of a seal part. The functions above ask that of their caller, this one asks nothing.
#[tactic(auto, unfolding(crate::specs::Part::is_seal_part))]
pub(crate) fn is_seal_part(part: &[u8]) -> bool
    ensures { result ≡ is_seal_part part.now }
{
    part.len() >= LEAST && has_counts(part) && has_kinds(part) && has_length(part)
}

// Whether n, t and d are from 1 to 512.
#[tactic(auto, unfolding(crate::specs::Part::to_512))]
fn has_counts(part: &[u8]) -> bool
    requires { 50 ≤ length part.now }
    ensures { result ≡ (to_512 (part_blocks part.now) && (to_512 (part_rows part.now) && to_512 (part_strength part.now))) }
{
    let limits = 1..=512;
    limits.contains(&count_of(part))
        && limits.contains(&rows_of(part))
        && limits.contains(&strength_of(part))
}

// Whether no kind is 0, and the byte behind them is.
fn has_kinds(part: &[u8]) -> bool
    requires { 50 ≤ length part.now }
    ensures { result ≡ (nat_lt 0 (slice_index part.now 2) && (nat_lt 0 (part_digest_kind part.now) && (nat_lt 0 (part_sealer_kind part.now) && slice_index part.now 7 == 0))) }
{
    part[2] != 0 && digest_kind_of(part) != 0 && sealer_kind_of(part) != 0 && part[7] == 0
}

// Whether a part is as long as its rows and its signature make it.
fn has_length(part: &[u8]) -> bool
    requires { 50 ≤ length part.now }
    ensures { result ≡ (length part.now == 50 + (32 * part_rows part.now + word part.now (text_length part.now))) }
{
    let end = text_end(part);
    end + 2 <= part.len() && part.len() == end + 2 + usize::from(read_word(part, end))
}

// How many blocks were sealed, if this is a seal part.
#[tactic(auto, using(crate::proofs::Parts::part_head))]
pub fn sealed_count(part: &[u8]) -> Option<u16>
    ensures { result ≡ cond (is_seal_part part.now) (Some (part_blocks part.now)) None }
{
    if !is_seal_part(part) {
        return None;
    }
    Some(count_of(part))
}

// Whether a family is the seal's.
#[tactic(auto, unfolding(crate::specs::Calls::same_family))]
pub(crate) fn is_family_of<F: Family>(part: &[u8], family: &F) -> bool
    requires { 16 ≤ length part.now }
    ensures { result ≡ same_family (F.shape family.now) part.now }
{
    count_of(part) == family.block_count()
        && family_kind_of(part) == family.kind_byte()
        && q_of(part) == family.q()
        && k_of(part) == family.k()
        && strength_of(part) == family.strength()
        && rows_of(part) == family.row_count()
}

#[tactic(auto, unfolding(crate::specs::Part::row_digest))]
pub(crate) fn row_digest_of(part: &[u8], row: RowNumber) -> &[u8]
    requires { (1 ≤ row.0) × (48 + 32 * row.0 ≤ length part.now) }
    ensures { result.now ≡ row_digest part.now row.0 }
{
    let start = HEAD + DIGEST * (usize::from(row.0) - 1);
    &part[start..start + DIGEST]
}

#[tactic(auto, unfolding(crate::specs::Part::whole_digest))]
pub(crate) fn whole_digest_of(part: &[u8]) -> &[u8]
    requires { text_length part.now ≤ length part.now }
    ensures { result.now ≡ whole_digest part.now }
{
    let end = text_end(part);
    &part[end - DIGEST..end]
}
