//! What execute packets mean: each instruction acts in the cycle of its issue, and its writes land after their delays.
#![tactic(auto)]

pub mod laws;
