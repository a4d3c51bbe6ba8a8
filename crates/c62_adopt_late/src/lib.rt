//! What draining a text of packets changes: a register that is read below a label before what lands in it there
//! (docs/ADOPT.md, "Cycles that lack").
#![tactic(auto)]

mod late;
pub mod laws;

pub use late::{Late, first_late};
