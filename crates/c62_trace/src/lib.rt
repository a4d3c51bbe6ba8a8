//! The events of a run as lines of a trace.
#![tactic(auto)]

pub mod laws;
mod line;
mod lines;
mod offering;
mod stream;
mod view;
mod watch;

pub use lines::Lines;
pub use offering::Refused;
pub use stream::tell;
pub use view::{View, Window};
pub use watch::Watch;
