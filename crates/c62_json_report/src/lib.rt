//! Documents of runs: what their reports tell, as JSON (docs/JSON.md, "Runs").
#![tactic(auto)]

mod brackets;
mod exit;
mod flights;
pub mod laws;
mod machine;
mod prints;
mod profile;
mod runs;
mod words;

pub use runs::{FlightRun, Left, PacketRun, flight_document, packet_document, serial_document};
