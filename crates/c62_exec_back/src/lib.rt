//! What holds between texts of packets that are adopted and the same texts in flight.
#![tactic(auto)]

pub mod laws;
