//! Reads a line of execute packets as people and compilers write them.
#![tactic(auto)]

mod directive;
mod fault;
pub mod laws;
mod line;
mod plain;

pub use directive::{lays_nothing, names_section};
pub use fault::LineFault;
pub use line::{Written, behind_bars, behind_colon, from_solid, label_of, read_line};
