//! The program without its streams: files by name round what is answered and taught, version and help.
#![tactic(auto)]

mod dumping;
mod ended;
mod joined;
mod labels;
mod page;
mod program;
mod sets;
mod teaching;
mod topic;
mod tracing;
mod trouble;
mod written;

pub use ended::Ended;
pub use page::{EXPLAIN, ISA, LABELS, LINT, TRACE};
pub use sets::run_program;
