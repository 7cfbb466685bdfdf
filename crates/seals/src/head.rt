// What a seal part says of itself, whether accepted or not: for people to read, and for the choice of the digest and the family that it names.
ghost use Rattle.std.specs.Prelude.{◌≡◌, ◌≤◌, length};
ghost use Rattle.seals.specs.Head.{head_fields, head_answer};

use crate::part::{
    count_of, digest_kind_of, family_kind_of, is_seal_part, k_of, q_of, read_number, rows_of,
    sealer_kind_of, strength_of,
};

// The numbers in the first sixteen bytes: n, the family's kind, q and k, the digest's kind, the sealer's kind, d, t, and the seal number.
#[derive(Clone, Copy)]
pub struct PartHead {
    pub blocks: u16,
    pub kind: u8,
    pub q: u8,
    pub k: u8,
    pub digest_kind: u8,
    pub sealer_kind: u8,
    pub strength: u16,
    pub rows: u16,
    pub number: u32,
}

// The head of some bytes, if they are a seal part by their form.
#[tactic(auto, using(crate::proofs::Parts::part_head))]
pub fn head_of(part: &[u8]) -> Option<PartHead>
    ensures { result ≡ head_answer part.now }
{
    if !is_seal_part(part) {
        return None;
    }
    Some(read_head(part))
}

fn read_head(part: &[u8]) -> PartHead
    requires { 50 ≤ length part.now }
    ensures { result ≡ head_fields part.now }
{
    PartHead {
        blocks: count_of(part),
        kind: family_kind_of(part),
        q: q_of(part),
        k: k_of(part),
        digest_kind: digest_kind_of(part),
        sealer_kind: sealer_kind_of(part),
        strength: strength_of(part),
        rows: rows_of(part),
        number: read_number(part),
    }
}
