//! Tells of a run how often each block was run, and what it took of the whole.
#![tactic(auto)]

mod blocks;
mod flights;
pub mod laws;
mod packets;
mod serial;
mod table;
mod tally;

pub use blocks::{Block, counts_in, cycles_of, from_place, is_told, runs_of};
pub use flights::flight_table;
pub use packets::{packet_table, run_packets};
pub use serial::{run_serial, serial_table};
pub use table::thousandths;
pub use tally::Tally;
