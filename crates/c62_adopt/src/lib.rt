//! Makes packets of a text of packets, as people and compilers write them.
#![tactic(auto)]

mod adopting;
mod breach;
mod fault;
pub mod laws;
mod listed;

pub use adopting::{Adopted, adopt, read_code};
pub use fault::AdoptFault;
