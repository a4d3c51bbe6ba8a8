//! The serial block of which packets are a schedule (docs/SHOW.md, "Packets as they stand").
#![tactic(auto)]

mod block;
mod order;

pub use block::{Unpacked, copied, unpack};
