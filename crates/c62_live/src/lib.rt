//! Which registers are live in the cycles of a schedule, and which its block leaves alone (docs/SHOW.md, "Registers").
#![tactic(auto)]

pub mod laws;
mod live;
mod lives;
mod rows;
mod uses;

pub use lives::{Lives, SideLives, lives_of};
pub use rows::{LiveRow, live_rows};
