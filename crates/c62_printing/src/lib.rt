//! Prints memory that settings ask for, as it is at the end of a run, and adds the bytes that go to files.
#![tactic(auto)]

mod dumping;
mod printing;

pub use dumping::push_dumps;
pub use printing::push_prints;
