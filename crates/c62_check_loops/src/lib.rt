//! Tells of all loops and other blocks of a serial text whether packets do what they do, and whether any row of these is left.
#![tactic(auto)]

mod constant;
mod covered;
mod fit;
mod granted;
pub mod laws;
mod lines;
mod promised;
mod reading;
mod settled;
mod told;
mod verdict;

pub use constant::constant_at;
pub use granted::{first_loopless, is_enough};
pub use promised::promise_of;
pub use reading::{Reading, readings_of};
pub use told::{LoopsChecked, LoopsJudged, check_loops, judge_loops};
pub use verdict::BlockVerdict;
