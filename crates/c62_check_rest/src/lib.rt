//! Tells of the blocks of a serial text that belong to no loop whether packets do what they do, beside packets that pipeline the loops.
#![tactic(auto)]

mod laid;
pub mod laws;
mod lines;
mod made;
mod named;
mod starts;
mod verdict;

pub use lines::push_rest;
pub use starts::{is_row, start_at, starts_of};
pub use verdict::{RestVerdict, check_rest};
