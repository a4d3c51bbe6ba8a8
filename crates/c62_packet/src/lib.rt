//! Blocks of execute packets that keep the packet rules, and lists of them.
#![tactic(auto)]

mod block;
mod fault;
mod landings;
pub mod laws;
mod length;
mod limits;
mod order;
mod packets;
mod placed;
mod rules;
mod taken;

pub use block::PacketBlock;
pub use fault::{BlockFault, PacketRule};
pub use limits::MOST_CYCLES;
pub use order::in_listing_order;
pub use packets::Packets;
pub use placed::Placed;
pub use rules::first_broken;
