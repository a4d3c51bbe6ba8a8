//! The serial meaning: registers, memory and faulted lines, and what blocks do to them, one
//! instruction after the other.
#![tactic(auto)]

mod chain;
pub mod laws;
mod operation;
mod serial;
mod state;

pub use chain::{Chain, End, run_program};
pub use serial::{Exit, run_block};
pub use state::{MEMORY_BYTES, State};
