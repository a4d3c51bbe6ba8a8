//! Finds the loops of a serial text again in software pipelined packets, and says whether these do the same.
#![tactic(auto)]

mod copied;
mod extent;
mod found;
pub mod laws;
mod lines;
mod region;
mod relined;
mod seats;
mod verdict;

pub use lines::{push_loop, push_register};
pub use region::{counter_of, ends_with_branch, has_below, is_apart_below};
pub use verdict::{LoopVerdict, check_loop};
