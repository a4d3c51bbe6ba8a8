//! Schedules of a block that are tried: lists that place from either end and choose units late. That what they answer keeps
//! the rules isn't said.
#![tactic(auto)]

mod list;
mod order;
mod packet;
mod spots;

pub use list::listed;
pub use order::{Order, Way};
pub use spots::spots_in;
