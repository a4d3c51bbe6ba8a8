//! Whether a schedule of at most so many cycles can be: a search over the cycles that are left to each instruction.
#![tactic(auto)]

mod crowd;
mod edge;
mod room;
mod search;
mod shrink;
mod trial;
mod window;

pub use search::{Search, search_for};
pub use window::Window;
