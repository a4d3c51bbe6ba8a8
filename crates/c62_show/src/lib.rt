//! The schedule of each block as a picture, and beside it how short a schedule can be at best (docs/SHOW.md).
#![tactic(auto)]

mod alone;
mod head;
pub mod laws;
mod limits;
mod registers;
mod shown;
mod whys;
pub mod words;

pub use alone::{push_size_of, summary};
pub use head::push_name;
pub use limits::{Limits, Step, limits_of, limits_with};
pub use registers::{lives_told, push_names, push_registers};
pub use shown::{Shown, picture, push_limits};
pub use whys::push_cause;
