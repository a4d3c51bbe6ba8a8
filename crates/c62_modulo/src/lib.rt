//! Makes software pipelined packets of a loop under a counter by iterative modulo scheduling (docs/SCHEDULING.md, "Pipelined loops").
#![tactic(auto)]

mod control;
mod lawful;
mod layout;
mod made;
mod packets;
mod straight;
mod timed;

pub use made::{Made, Shortness, Terms, pipelined};
