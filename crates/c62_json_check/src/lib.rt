//! The documents of `check` (docs/JSON.md, "check").
#![tactic(auto)]

mod block;
mod document;
pub mod laws;
mod other;
mod reason;

pub use block::{push_told, push_verdict};
pub use document::{CheckedDocument, check_document};
