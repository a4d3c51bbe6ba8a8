//! Tells each access that faults where a program is run serially.
#![tactic(auto)]

mod fault;
pub mod laws;
mod run;
mod sentence;

pub use fault::{Cause, Fault, note};
pub use run::faults_of;
pub use sentence::push_faults;
