//! Cuts lines of packets into blocks: in which cycle of which block each line stands, and which cycles lack where a block is over.
#![tactic(auto)]

mod clock;
mod draft;
mod fault;
mod flight;
pub mod laws;
mod text;

pub use clock::Stand;
pub use draft::{Draft, Issue};
pub use fault::{TextCause, TextFault};
pub use flight::{cycles_lacking, first_in_flight};
pub use text::{Cut, MOST_BYTES, read_cut};
