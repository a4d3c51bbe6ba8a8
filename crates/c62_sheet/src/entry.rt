//! Spots, changes of a set of placements, and why a placement is refused.

use c62_insn::Unit;
use c62_rules::CycleRule;
use thiserror::Error;

/// Where an instruction stands: a cycle, from 0, and a functional unit.
#[derive(Clone, Copy, PartialEq, Eq, Debug)]
pub struct Spot {
    /// The cycle in which it is issued.
    pub cycle: u16,
    /// The unit on which it is issued.
    pub unit: Unit,
}

/// Who changed the placements.
#[derive(Clone, Copy, PartialEq, Eq, Debug)]
pub enum Who {
    /// The worker of side A.
    A,
    /// The worker of side B.
    B,
    /// Whoever finishes what the workers left.
    Tail,
}

/// One change of the placements.
#[derive(Clone, Copy, PartialEq, Eq, Debug)]
pub enum Entry {
    /// An instruction, by its number, was placed at a spot.
    Place(u16, Spot, Who),
    /// An instruction, by its number, was withdrawn.
    Withdraw(u16, Who),
}

/// What unused places of a list hold.
impl Default for Entry {
    fn default() -> Entry {
        Entry::Withdraw(0, Who::Tail)
    }
}

/// What speaks against a placement, in the order in which it is asked (`docs/SCHEDULING.md`, "Why a spot is refused").
#[derive(Clone, Copy, PartialEq, Eq, Debug, Error)]
pub enum Rule {
    /// The instruction is placed already.
    #[error("Placed")]
    Placed,
    /// The instruction may not stand on the unit.
    #[error("Unit")]
    Unit,
    /// The cycle is not below five times the number of instructions.
    #[error("Limit")]
    Limit,
    /// Something that the instruction depends on is not placed.
    #[error("Missing")]
    Missing,
    /// The cycle is too early for something that the instruction depends on.
    #[error("Delay")]
    Delay,
    /// One of the packet rules P1 to P4 would be broken in this cycle.
    #[error("{0}")]
    InCycle(CycleRule),
}

/// Why a spot is refused.
#[derive(Clone, Copy, PartialEq, Eq, Debug, Error)]
#[error("{rule} in cycle {cycle}")]
pub struct Unlawful {
    /// The first rule that speaks against it.
    pub rule: Rule,
    /// For [`Rule::Delay`] the first cycle that is late enough, and else the cycle of the spot.
    pub cycle: u16,
}

/// How many instructions of each side are placed, and how many are ready.
#[derive(Clone, Copy, PartialEq, Eq, Debug)]
pub struct Counts {
    /// Those of side A that are placed.
    pub placed_a: u16,
    /// Those of side B that are placed.
    pub placed_b: u16,
    /// Those of side A that are ready.
    pub ready_a: u16,
    /// Those of side B that are ready.
    pub ready_b: u16,
}
