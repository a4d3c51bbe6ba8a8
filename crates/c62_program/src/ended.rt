//! How a run ends that may write a trace.

use c62_drawing::Traced;

/// How a run ended: its status, and its stream of errors, which is taken since a trace may go through it.
#[derive(Drop)]
pub struct Ended<E> {
    pub errors: E,
    pub status: u8,
    /// What the stream of errors got of a trace that goes there: all, or a front where it refused what follows.
    pub traced: Traced,
}
