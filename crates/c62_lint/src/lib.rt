//! Finds the faults of a serial text, all at once.
#![tactic(auto)]

mod faults;
mod laws;

pub use faults::faults_of;
pub use laws::first_is_the_refusal;
