//! The objects of `check --loops` (docs/JSON.md, "check --loops").
#![tactic(auto)]

mod but;
mod document;
mod early;
pub mod laws;
mod looped;
mod member;
mod rest;
mod verdict;

pub use document::{LoopsDocument, loops_document};
pub use looped::push_loop;
pub use rest::push_rest;
