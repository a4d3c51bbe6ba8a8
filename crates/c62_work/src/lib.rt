//! Whole schedules: steps of both sides in turn, on one thread or by two workers that share one board behind a lock, and
//! what is left at the end.
#![tactic(auto)]

mod alternating;
pub mod bells;
mod finishing;
mod gate;
pub mod rounds;
mod scheduling;
mod workers;

pub use alternating::{goes_on, turns};
pub use finishing::finish;
pub use gate::{FreeGate, Gate};
pub use scheduling::{Options, schedule};
pub use workers::{take_turn, worker};
