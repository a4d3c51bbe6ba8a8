//! The trace and the waveform that `sim` and `exec` write of their run: which words ask for them (docs/TRACE.md).
#![tactic(auto)]

mod word;
mod words;

pub use words::{Destination, Tracing, is_traced, other_words, tracing_of};
