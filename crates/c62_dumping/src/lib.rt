//! Parts the answer of a run that ends with memory for files: the report, and the bytes of each file. Says that it ended by its limit.
#![tactic(auto)]

mod counts;
mod cutting;
mod laws;
mod limit;

pub use counts::counts_asked;
pub use cutting::{files_of, parted};
pub use laws::dumps_are_parted;
pub use limit::{limit_note, limit_said};
