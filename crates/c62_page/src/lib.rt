//! The page of blocks that are shown, beside the lines of their text (docs/PAGE.md).
#![tactic(auto)]

mod block;
mod causes;
mod cells;
mod flight;
pub mod frame;
mod grid;
pub mod laws;
mod script;
mod style;
pub mod tags;
mod text;
mod whole;
mod words;

pub use script::SCRIPT;
pub use style::STYLE;
pub use text::{push_line, push_linked};
pub use whole::page;
