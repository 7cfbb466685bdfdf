// Texts for people: what a sealed file says, what a check named, and why a call refused.
#![tactic(auto)]

mod block;
mod check;
mod file;
mod head;
mod refused;

pub use check::check_text;
pub use file::file_text;
pub use refused::refusal_text;
