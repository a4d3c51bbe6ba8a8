//! A board on which the instructions of a block are placed: its placements keep all rules, and its journal tells how they came about.
#![tactic(auto)]

mod board;
mod fault;
pub mod laws;
mod turn;
mod withdrawal;

pub use board::Board;
pub use c62_sheet::{Counts, Entry, Rule, Sheet, Spot, Unlawful, Who};
pub use fault::{CommitFault, PlaceFault, ReplayFault, WithdrawFault};
pub use turn::{Proposal, Turn, who_of};
