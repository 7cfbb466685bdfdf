// Keys of any kind: the words that tell one, the key that they make, and how a key stands in a file.
#![tactic(auto)]

mod drawing;
mod file;
mod key;
mod uses;
mod words;

pub use file::{KeyFile, LmsPublicWords};
pub use key::{AnyInspector, AnyKey};
pub use words::{KeyWords, LmsWords, TagWords};
