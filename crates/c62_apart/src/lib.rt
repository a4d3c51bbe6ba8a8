//! Tells where accesses that are promised to be apart meet in a serial run, and by which lines.
#![tactic(auto)]

mod base;
mod marks;
mod parts;
mod run;
mod sentence;
mod touch;
mod visit;

pub use marks::Meeting;
pub use run::meetings_of;
pub use sentence::push_loops;
pub use touch::Touch;
pub use visit::Visit;
