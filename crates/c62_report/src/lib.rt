//! The report of a run, of blocks or of packets in flight.
#![tactic(auto)]

mod flight;
mod print;
mod report;

pub use flight::flight_report;
pub use print::{push_print, signed_value, value_at};
pub use report::{packet_report, push_address, push_hex, serial_report};
