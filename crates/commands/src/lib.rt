// The commands of `nazkoiber` on files. No contract can say what a file holds: what these make of words and of a file's bytes is said by the contracts here and in the crates below.
#![tactic(auto)]

mod choice;
mod command;
mod contents;
mod demo;
mod dispatch;
mod keeping;
mod misuse;
mod office;
mod problem;
mod sealing;
mod usage;
mod words;

pub use dispatch::run;
pub use problem::Problem;
