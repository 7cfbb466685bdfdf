// LMS keys: hash-based signatures of RFC 8554, by LMS_SHA256_M32_H5 and LMOTS_SHA256_N32_W8. Chains and trees stand over any digest, keys over SHA-256. Theorems first, each on the contract of a function.
#![tactic(auto)]

ghost use Rattle.lms.specs.Law.{SigningIsAccepted, AcceptsExactlyIf, PublicKeysHave56Bytes};
ghost use Rattle.lms.specs.Nodes.{NodesMakeTheTree};
ghost use Rattle.lms.specs.Worked.{WorkedValues};

mod key;
mod ots;
mod public;
mod strings;
mod tree;

pub use key::LmsKey;
pub use public::LmsPublic;

// Over any hash of 32 bytes: every signature by a leaf below 32 is accepted under its public key, has 1,292 bytes and begins with the leaf.
#[tactic(auto, using(crate::specs::SigningLaw::signing_is_accepted))]
pub fn signing_is_accepted()
    ensures { SigningIsAccepted }
{}

// Algorithm 6 accepts exactly if lengths, typecodes and leaf are right and the candidate is the key's root.
#[tactic(auto, using(crate::specs::FormLaw::accepts_exactly_if))]
pub fn accepts_exactly_if()
    ensures { AcceptsExactlyIf }
{}

#[tactic(auto, using(crate::specs::SigningLaw::public_keys_have_56_bytes))]
pub fn public_keys_have_56_bytes()
    ensures { PublicKeysHave56Bytes }
{}

// A table of the nodes, built from the leaves down to node 1 as section 5.3 says, holds the root and every path.
#[tactic(auto, using(crate::specs::TreeLaw::nodes_make_the_tree))]
pub fn nodes_make_the_tree()
    ensures { NodesMakeTheTree }
{}

// The small definitions give the RFC's examples of coef, and other values.
#[tactic(auto, using(crate::proofs::Worked::worked_values))]
pub fn worked_values()
    ensures { WorkedValues }
{}
