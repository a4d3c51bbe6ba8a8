//! Reads listings.
#![tactic(auto)]

mod draft;
mod fault;
mod judge;
pub mod laws;
mod line;
mod names;
mod reader;
mod spelled;
mod text;

pub use fault::ListFault;
pub use reader::{MOST_BYTES, read_listing};
