//! Traces and waveforms of the runs that words ask for (docs/TRACE.md, docs/WAVE.md).
#![tactic(auto)]

mod draw;
mod read;
mod run;

pub use draw::Drawn;
pub use run::{Traced, draw_text};
