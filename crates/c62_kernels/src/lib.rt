//! Kernels of loops that are tried: modulo schedules, which say in which cycle of a kernel, and in which of its passes, each instruction of
//! an iteration is issued. That what they answer keeps the rules isn't said.
#![tactic(auto)]

mod bound;
mod edge;
mod graph;
mod modulo;
mod search;
mod slot;
mod stages;
mod task;

pub use bound::least_interval;
pub use edge::{OF_LOOPS, OF_STRAIGHT, needs};
pub use graph::Graph;
pub use modulo::Modulo;
pub use search::{Fixed, schedule_of, straight_schedule};
pub use task::Task;
