//! What texts of packets mean with branches and writes in flight over labels.
#![tactic(auto)]

pub mod laws;
mod stop;

pub use stop::Stop;
