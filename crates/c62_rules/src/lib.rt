//! The rules between the instructions of a block: which may share cycles, how far apart they must stand, and how long
//! the block is.
#![tactic(auto)]

pub mod laws;
mod resource;

pub use resource::{CycleRule, Resource, taken_by};
