// Sealed files: a sheet's blocks framed, their seal part, and a trailer. The function here does nothing: its contract is a theorem.
#![tactic(auto)]

ghost use Rattle.files.specs.RoundTrip.{RoundTrip};

mod packing;
mod trailer;
mod unpacking;

pub use packing::pack;
pub use unpacking::unpack;

#[tactic(auto, using(crate::proofs::RoundTrip::round_trip))]
pub fn round_trip()
    ensures { RoundTrip }
{}
