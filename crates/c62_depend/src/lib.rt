//! The plan of a block: how far its instructions must stand apart, on which side each stands, and how urgent each is.
#![tactic(auto)]

mod direct;
mod excuse;
mod height;
mod latency;
pub mod laws;
mod limits;
mod links;
mod number_set;
mod plan;
mod register_users;
mod same;
mod side;
mod since;
mod tables;

pub use limits::ISSUE_CYCLES;
pub use links::{Link, Links};
pub use plan::Plan;
