//! A sharper bound of how short a schedule of a block can be: by what crowds behind each instruction.
#![tactic(auto)]

mod crowd;
mod height;
pub mod laws;
mod lead;
mod length;
mod order;
mod room;

pub use crowd::Crowd;
pub use length::raised_length;
pub use room::{ROOMS, Room};
