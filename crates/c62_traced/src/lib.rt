//! Runs that tell of their events as they go.
#![tactic(auto)]

mod block;
mod chain;
mod flight;
mod names;
mod row;

pub use chain::run_chain_traced;
pub use flight::fly_traced;
pub use names::{names_of_packets, names_of_rows};
