//! Says of a fault of packets, in a listing or as people and compilers write them, what is wrong and which lines have part in it.
#![tactic(auto)]

mod early;
mod finding;
mod further;
mod further_listed;
mod help;
mod linted;
mod remarks;
mod sharing;
mod told;

pub use early::{EarlyRead, early_reads};
pub use finding::{Finding, What, of_adopt, of_listing, of_rows};
pub use linted::{Linted, lint_listing, lint_packets, push_early_sentence};
pub use remarks::{PlacedFinding, PlacedRead, Remarks, listing_remarks, packets_remarks};
pub use sharing::lines_sharing;
pub use told::explain;
