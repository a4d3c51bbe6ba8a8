//! The document of a text: its lines (docs/JSON.md, "Lines").
#![tactic(auto)]

mod lines;

pub use lines::lines_document;
