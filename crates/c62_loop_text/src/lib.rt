//! Writes the packets of a pipelined loop as a text.
#![tactic(auto)]

mod writer;

pub use writer::push_loop;
