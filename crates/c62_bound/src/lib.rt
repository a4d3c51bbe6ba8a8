//! How short a schedule of a block can be at best: the critical path, and how many instructions find room in a cycle.
#![tactic(auto)]

mod greatest;
pub mod laws;
mod length;
mod need;
mod path;

pub use greatest::{bound, waits_for};
pub use length::least_length;
pub use need::{KINDS, Kind, Need};
pub use path::{critical_path, path_length};
