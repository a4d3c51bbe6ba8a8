//! Why spots make no packets.

use thiserror::Error;

/// Why spots make no packets.
#[derive(Clone, Copy, PartialEq, Eq, Debug, Error)]
pub enum AtFault {
    /// They are not a lawful complete set of placements of the plan.
    #[error("NotLawful")]
    NotLawful,
    /// Memory ran out.
    #[error("Memory")]
    Memory,
}
