//! What a software pipelined loop is beside its serial loop.
#![tactic(auto)]

pub mod laws;
