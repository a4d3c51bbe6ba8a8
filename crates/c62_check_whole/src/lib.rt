//! What packets that are told to do what a program's loops and blocks do leave in a run of the whole program.
#![tactic(auto)]

pub mod laws;
