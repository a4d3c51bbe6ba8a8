//! Says of a fault of a serial text where it is found, what is wrong, and a way out.
#![tactic(auto)]

mod colon;
mod help;
mod lines;
mod mnemonic;
mod names;
mod near;
mod operands;
mod picture;
mod placed;
mod sentence;
mod topic;

pub use help::{line_help, push_hint};
pub use lines::{MOST_FAULTS, explain, line_at, lint};
pub use picture::{push_blanks, push_picture, push_position};
pub use placed::{PlacedFault, placed_faults, push_column};
pub use sentence::sentence as sentence_of;
pub use topic::page;
