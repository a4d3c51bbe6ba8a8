//! Why an instruction of a schedule isn't issued a cycle earlier, and how much later it could be (docs/SHOW.md, "Why not earlier").
#![tactic(auto)]

mod held;
pub mod laws;
mod taken;
mod why;

pub use held::Held;
pub use taken::Taken;
pub use why::{Cause, Shortage, Why, critical_lines, whys_told};
