//! How a run of packets in flight stops.

use c62_op::Reg;

/// How a run of packets stops.
#[derive(Clone, Copy, PartialEq, Eq, Debug)]
pub enum Stop {
    /// It went on past the last packet, with no branch in flight.
    End,
    /// It branched to the value of a register.
    Register(u32),
    /// Writes of this register by the instructions of these two lines landed in one cycle.
    Clash(Reg, u32, u32),
    /// The branches of these two lines, which share a packet, both ran.
    Branches(u32, u32),
    /// So many cycles had passed as were allowed, and another packet would follow.
    Limit,
}
