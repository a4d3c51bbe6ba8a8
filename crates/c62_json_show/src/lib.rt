//! The document of `show`: the schedule of each block, and how short it can be at best (docs/JSON.md, "Shown blocks").
#![tactic(auto)]

mod causes;
mod landings;
pub mod laws;
mod limits;
mod registers;
mod shown;
mod words;

pub use shown::shown_document;
