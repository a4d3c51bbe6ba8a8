//! What an instruction uses, at hand for its dependences, and how far two instructions must stand apart by it.
#![tactic(auto)]

mod bound;
mod condition;
mod covered;
mod reg_set;
mod uses;

pub use bound::{as_bound, by_order, by_registers};
pub use covered::Covered;
pub use reg_set::RegSet;
pub use uses::Uses;
