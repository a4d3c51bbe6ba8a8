//! Runs texts of execute packets cycle by cycle, with branches, writes and loads in flight over labels.
#![tactic(auto)]

mod clash;
mod issuable;
mod run;
mod taken;
mod tally;
mod turns;
mod underway;

pub use issuable::is_issuable;
pub use run::{Flown, fly, fly_counted, row_after, run_row};
pub use taken::Taken;
pub use tally::Count;
pub use turns::Turns;
pub use underway::{Passed, Underway};
