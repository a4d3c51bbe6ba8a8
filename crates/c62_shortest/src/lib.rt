//! Schedules that are shorter than a board's: found by lists and by a search, and told to be the shortest where a search
//! refutes that fewer cycles do.
#![tactic(auto)]

mod either_side;
mod found;
mod listed;
mod schedule;
mod searched;

pub use found::shortest;
pub use schedule::Schedule;
pub use searched::Shortest;
