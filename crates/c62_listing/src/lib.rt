//! The listing of packets.
#![tactic(auto)]

mod spelling;
mod writer;

pub use spelling::push_spelling;
pub use writer::{label_text, list};
