//! Documents: what the program tells, as JSON (docs/JSON.md).
#![tactic(auto)]

mod document;
pub mod laws;
mod value;
mod version;

pub use document::{begin, end};
pub use value::{push_count, push_flag, push_key, push_missing, push_name, push_signed, push_text};
pub use version::VERSION;
