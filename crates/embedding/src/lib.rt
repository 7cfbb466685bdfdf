// Seals for programs in C and Rust: calls on numbers and bytes, by tag keys. Each export hands on to a function that answers a `Result`, and turns that into a status.
#![tactic(auto)]

mod call;
mod exports;
mod key;
mod packing;
mod status;
