//! Writes packets of a program whose loops are software pipelined: such that the check of loops tells that they do what the program does, and
//! else each block's own. Tells what became of each loop, and draws the kernels.
#![tactic(auto)]

mod checked;
mod chosen;
mod kernel;
pub mod laws;
mod limit;
mod lines;
mod meeting;
mod origin;
mod splice;
mod written;

pub use chosen::{Choice, Kept};
pub use kernel::{Parts, has_line, kernels, later, parts_of, push_range, stage_of};
pub use limit::Limit;
pub use lines::{loop_lines, push_choice, push_name_at};
pub use meeting::{Meeting, meeting_in};
pub use origin::{Origin, lined, origins_of};
pub use written::{Pipelining, pipeline};
