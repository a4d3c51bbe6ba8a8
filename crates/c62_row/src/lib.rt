//! What the instructions of one cycle take of it, and which packet rule speaks against one more.
#![tactic(auto)]

pub mod laws;
mod row;

pub use row::{Row, Uses};
