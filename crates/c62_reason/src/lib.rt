//! Why an instruction must come so many cycles behind another (docs/CHECK.md, "Why an instruction comes too early").
#![tactic(auto)]

pub mod laws;
mod reason;

pub use reason::{Reason, reason_for};
