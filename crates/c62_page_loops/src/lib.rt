//! The page of a program's pipelined loops, beside the lines of its text (docs/PAGE.md, "Pipelined loops").
#![tactic(auto)]

mod frame;
mod kernel;
pub mod laws;
mod text;
mod whole;

pub use whole::loops_page;
