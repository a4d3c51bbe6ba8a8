//! The code of a text of packets: which of its lines are adopted, and which say nothing, as they stand in other sections.
#![tactic(auto)]

mod code;
mod fault;
pub mod laws;
mod quote;
mod role;
mod statement;
mod way;

pub use code::code_of;
pub use fault::{CodeCause, CodeFault};
pub use role::{Role, read_role};
pub use statement::label_in_front;
pub use way::Way;
