//! What holds between texts of packets and listings.
#![tactic(auto)]

pub mod laws;
