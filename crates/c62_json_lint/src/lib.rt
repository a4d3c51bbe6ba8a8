//! The documents of `lint` (docs/JSON.md, "lint").
#![tactic(auto)]

mod document;
mod fault;
pub mod laws;
mod packets;
mod serial;

pub use document::LintedDocument;
pub use packets::{listing_document, packets_document};
pub use serial::serial_document;
