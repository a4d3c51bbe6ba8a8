//! Reads texts of execute packets as people and compilers write them into rows, which run with everything in flight.
#![tactic(auto)]

mod fault;
mod half;
mod key;
pub mod laws;
mod reader;
mod rows;
mod text;
mod word;

pub use fault::{RowsCause, RowsFault};
pub use key::Key;
pub use rows::{Row, Rows};
pub use text::{Begun, RowsText, read_from, read_rows};
pub use word::{Said, read_said, undotted};
