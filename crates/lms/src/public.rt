// The public part of a key. Who inspects holds no more, and can sign nothing.
ghost use Rattle.std.specs.Prelude.{◌≡◌, ◌≤◌};
ghost use Rattle.std.proofs.Common.{rules};
ghost use Rattle.lms.specs.Strings.{str_to_u32, bytes_at};
ghost use Rattle.lms.specs.Lms.{public_key, lms_form, lms_candidate, lms_accepts, lms_says};
ghost use Rattle.sha256.specs.Sha256.{sha256_of};

use crate::ots::{self, Leaf};
use crate::strings::{ONE_TIME_TYPE_AT, SIZE, TYPE_AT, number_at};
use crate::tree::{self, LEAVES};
use digests::{Digest, same_bytes};
use keys::Inspector;
use sha256::Sha256;

pub(crate) const KIND: u8 = 2;

// The identifier I and the root T[1].
#[derive(Clone, Copy)]
pub struct LmsPublic {
    id: [u8; 16],
    root: [u8; 32],
}

impl LmsPublic {
    pub fn new(id: [u8; 16], root: [u8; 32]) -> LmsPublic
        ensures id { result.id ≡ id }
        ensures root { result.root ≡ root }
    {
        LmsPublic { id, root }
    }

    pub fn id(&self) -> [u8; 16]
        ensures { result ≡ self.now.id }
    {
        self.id
    }

    pub fn root(&self) -> [u8; 32]
        ensures { result ≡ self.now.root }
    {
        self.root
    }
}

impl Inspector for LmsPublic {
    ghost kind = { λ _. 2 };

    ghost says = { λ i number text signature. lms_says sha256_of (public_key i.id i.root) number text signature };

    ghost kind_range = { Prim.search rules };

    fn kind_byte(&self) -> u8 {
        KIND
    }

    #[tactic(auto, using(crate::specs::FormLaw::says_of_other_length))]
    fn inspect(&self, number: u32, text: &[u8], signature: &[u8]) -> bool {
        match signature.as_array::<SIZE>() {
            Some(signature) => says::<Sha256>(&self.id, &self.root, number, text, signature),
            None => false,
        }
    }
}

// That Algorithm 6 accepts, and that the leaf is the number.
#[tactic(auto, unfolding(crate::specs::Lms::lms_says))]
fn says<D: Digest>(
    id: &[u8; 16],
    root: &[u8; 32],
    number: u32,
    text: &[u8],
    signature: &[u8; SIZE],
) -> bool
    ensures { result ≡ lms_says D.digest (public_key id.now root.now) number text.now signature.now }
{
    accepts::<D>(id, root, text, signature) && number_at(signature, 0) == number
}

// Algorithm 6, for a signature of the right length.
#[tactic(auto, using(crate::specs::FormLaw::accepts_is, crate::specs::FormLaw::leaf_below))]
fn accepts<D: Digest>(id: &[u8; 16], root: &[u8; 32], text: &[u8], signature: &[u8; SIZE]) -> bool
    ensures { result ≡ lms_accepts D.digest (public_key id.now root.now) text.now signature.now }
{
    if !is_formed(signature) {
        return false;
    }
    let leaf = Leaf {
        id: *id,
        number: number_at(signature, 0),
    };
    same_bytes(&candidate::<D>(&leaf, text, signature), root)
}

// The typecodes of the one-time signature and of the signature, and a leaf that the tree has.
#[tactic(auto, using(crate::specs::FormLaw::form_of_size))]
fn is_formed(signature: &[u8; SIZE]) -> bool
    ensures { result ≡ lms_form 5 4 signature.now }
{
    number_at(signature, ONE_TIME_TYPE_AT) == ots::TYPECODE
        && number_at(signature, TYPE_AT) == tree::TYPECODE
        && number_at(signature, 0) < LEAVES
}

// Tc, from a signature by that leaf.
#[tactic(auto, using(crate::proofs::Loops::lms_candidate_at))]
fn candidate<D: Digest>(leaf: &Leaf, text: &[u8], signature: &[u8; SIZE]) -> [u8; 32]
    requires { leaf.now.number ≡ str_to_u32 (bytes_at signature.now 0 4) }
    ensures { result ≡ lms_candidate D.digest leaf.now.id text.now signature.now }
{
    tree::root_candidate::<D>(leaf, &leaf.candidate::<D>(text, signature), signature)
}
