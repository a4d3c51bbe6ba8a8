//! Tells each access that faults where packets are run, block by block or with everything in flight.
#![tactic(auto)]

mod block;
mod chain;
mod flight;
pub mod laws;

pub use chain::faults_of_packets;
pub use flight::faults_of_flight;
