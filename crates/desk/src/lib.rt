// Whole files at a desk: sealing a sheet, opening what was sealed by the digest and the family that it names, and the calls on it.
#![tactic(auto)]

mod by_digest;
mod opened;
mod scheme;
mod sealing;
mod stop;

pub use by_digest::{check_by, confirm_by, vouch_by};
pub use opened::{OpenFile, OpenPart, open_file, open_part};
pub use scheme::digest_numbered;
pub use sealing::{pack_file, seal_part};
pub use stop::Stop;
