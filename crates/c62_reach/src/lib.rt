//! The part of a text of packets that a label reaches.
#![tactic(auto)]

mod fault;
mod file;
mod index;
pub mod laws;
mod line;
mod part;
mod search;
mod taken;

pub use fault::ReachFault;
pub use taken::reached_text;
