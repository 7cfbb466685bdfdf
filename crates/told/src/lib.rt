// What lines tell of digests and families: the words that name one, and the texts of a family and of a block's rows.
#![tactic(auto)]

mod algorithm;
mod name;
mod number;
mod text;

pub use algorithm::Algorithm;
pub use name::FamilyName;
pub use number::parse_count;
pub use text::{family_text, rows_text};
