//! The set of instructions that words ask for by `--isa`, and the words that are left (docs/COMMANDS.md, "Options").
#![tactic(auto)]

mod word;
mod words;

pub use words::{asked_set, asks_set, other_words};
