//! Execute packets run cycle by cycle, with delayed writes, and chains of packet blocks.
#![tactic(auto)]

mod chain;
pub mod laws;
mod pipe;
mod ring;
mod slot;

pub use chain::run_chain;
pub use pipe::Pipe;
pub use slot::Due;
