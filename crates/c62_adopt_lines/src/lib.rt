//! What holds of the lines of packets that are adopted.
#![tactic(auto)]

pub mod laws;
