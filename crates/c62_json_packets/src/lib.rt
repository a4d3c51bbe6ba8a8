//! Packets in documents: the blocks of `pack` (docs/JSON.md, "Packets").
#![tactic(auto)]

mod block;
mod document;
mod instruction;
mod labels;
pub mod laws;
pub mod member;
mod packet;
mod register;

pub use block::{push_blocks, push_heading};
pub use document::packets_document;
pub use labels::{copied, labels_of};
pub use packet::push_packets;
pub use register::{push_register, push_register_member};
