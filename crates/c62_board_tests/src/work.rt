//! Workers, whole schedules by two of them, and what wakes those.

mod bells;
mod gate;
mod worker;
