//! How few cycles may lie between two passes of any kernel of a loop: by what a cycle has so many of, and by dependences in a circle.
#![tactic(auto)]

mod cause;
mod circle;
mod dependence;
pub mod laws;
mod least;
mod needs;
mod search;
mod share;
mod shares;
mod work;

pub use cause::{Cause, cause_of};
pub use dependence::Dependence;
pub use least::least_interval;
pub use share::Share;
