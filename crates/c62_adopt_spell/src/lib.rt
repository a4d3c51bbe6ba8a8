//! Other spellings of lines of packets, in place of which the one stands that the reader of lines has.
#![tactic(auto)]

mod bracket;
mod comment;
pub mod laws;
mod line;
mod local;
mod names;
mod number;
mod operation;
mod statement;
mod sum;
mod text;

pub use local::{behind_local, reference_of};
pub use text::spelled_text;
