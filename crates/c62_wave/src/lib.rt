//! The waveform of a run: a value change dump, which is written as the run goes.
#![tactic(auto)]

mod course;
mod dump;
mod header;
pub mod laws;
mod signals;
mod value;
mod wave;

pub use course::Course;
pub use signals::{Recent, Signals};
pub use value::Value;
pub use wave::Wave;
