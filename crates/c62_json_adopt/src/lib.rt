//! The document of `adopt`: packets as they were written, and what draining them added (docs/JSON.md, "Adopted packets").
#![tactic(auto)]

mod adopted;

pub use adopted::{Drained, adopted_document};
