//! The execute packets of a plan whose instructions are placed.
#![tactic(auto)]

mod arrange;
mod fault;
pub mod laws;
mod packets;

pub use fault::AtFault;
pub use packets::{packets_at, packets_of, packets_on_either_side, placed_at, placed_of};
