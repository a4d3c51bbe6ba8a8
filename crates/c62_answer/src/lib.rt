//! What answers the bytes of a text, as the words of the command line ask: packs serial text into execute packets, adopts packets
//! as others write them, and runs text and packets, with everything in flight.
#![tactic(auto)]

mod answer;
mod checking;
mod checking_loops;
mod documents;
mod exec;
mod failure;
mod input;
pub mod laws;
mod message;
mod outcome;
mod packets;
mod parting;
mod pipelining;
mod reaching;
mod run;
mod run_documents;
mod schedule;
mod standing;
mod strict;
mod tool;
mod writing;

pub use input::{InputError, read_text};
pub use parting::{MOST_BYTES, Parts, parts_of};
pub use run::opening;
pub use tool::{Ran, run_on_bytes, run_tool};
pub use writing::{Refused, show, write_pieces, write_whole};
