//! Whether packets, made by anyone, do what a serial text does: each block of them is held against the block of the text.
#![tactic(auto)]

mod checked;
mod early;
mod judged;
pub mod laws;
mod lines;
mod matched;
mod verdict;

pub use checked::{Checked, check};
pub use early::Early;
pub use judged::{Judged, judge};
pub use lines::{push_verdict, push_words};
pub use verdict::{Verdict, check_block};
