//! What is called round each turn of a worker.

use c62_board::Turn;
use c62_insn::Side;

/// Is called round each turn of a worker, while the worker does not hold the lock: to watch the workers, or to hold one
/// back.
pub trait Gate {
    /// Before a turn of a side. Its turns are counted from 0.
    fn before(&self, side: Side, turn: u32);

    /// After that turn, with what it came to.
    fn after(&self, side: Side, turn: u32, came: &Turn);
}

/// A gate that does nothing.
#[derive(Clone, Copy, Debug)]
pub struct FreeGate;

impl Gate for FreeGate {
    fn before(&self, _side: Side, _turn: u32) {}

    fn after(&self, _side: Side, _turn: u32, _came: &Turn) {}
}
