//! Text in a page of HTML.
#![tactic(auto)]

mod escape;
pub mod laws;
mod write;

pub use write::{push_number_in, push_own, push_own_in, push_text, push_text_in};
