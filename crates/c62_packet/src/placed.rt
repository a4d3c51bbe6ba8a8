//! Placed instructions.

use c62_insn::{Insn, Unit};

/// An instruction issued in a cycle of its block, on a unit.
#[derive(Clone, Copy)]
pub struct Placed {
    pub insn: Insn,
    /// The line of the text that it was read from, from 1.
    pub line: u32,
    /// The cycle of its packet, from 0.
    pub cycle: u16,
    pub unit: Unit,
}
