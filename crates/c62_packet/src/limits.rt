//! How long packet blocks may be.

/// The most cycles of a packet block.
pub const MOST_CYCLES: u16 = 2_048;
