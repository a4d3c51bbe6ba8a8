//! In how many cycles a block may be issued.

use c62_read::MOST_INSTRUCTIONS;

/// In how many cycles the instructions of a block may be issued: five for each of the most. No height is greater.
pub const ISSUE_CYCLES: u16 = 5 * MOST_INSTRUCTIONS as u16;
