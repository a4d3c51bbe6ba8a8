//! Why a board refuses a call. After each of these the board is as it was.

use thiserror::Error;

/// Why an instruction is not placed.
#[derive(Clone, Copy, PartialEq, Eq, Debug, Error)]
pub enum PlaceFault {
    /// It is placed already, or something that it depends on is not.
    #[error("NotReady")]
    NotReady,
    /// No spot leaves the placements lawful.
    #[error("NoRoom")]
    NoRoom,
    /// The journal has no room for the entry, and could not grow.
    #[error("Memory")]
    Memory,
}

/// Why a proposal is not committed.
#[derive(Clone, Copy, PartialEq, Eq, Debug, Error)]
pub enum CommitFault {
    /// There is no such instruction, or it is placed already, or something that it depends on is not.
    #[error("NotReady")]
    NotReady,
    /// The spot is not the instruction's least spot now. The journal has so many entries.
    #[error("Stale at {0}")]
    Stale(usize),
    /// The journal has no room for the entry, and could not grow.
    #[error("Memory")]
    Memory,
}

/// Why an instruction is not withdrawn.
#[derive(Clone, Copy, PartialEq, Eq, Debug, Error)]
pub enum WithdrawFault {
    /// It is not placed.
    #[error("NotPlaced")]
    NotPlaced,
    /// The journal has no room for the entries, and could not grow.
    #[error("Memory")]
    Memory,
}

/// Why a list of entries is not replayed.
#[derive(Clone, Copy, PartialEq, Eq, Debug, Error)]
pub enum ReplayFault {
    /// The entry at this index, from 0, is the first that is not legal.
    #[error("BadEntry {0}")]
    BadEntry(usize),
    /// Memory ran out.
    #[error("Memory")]
    Memory,
}
