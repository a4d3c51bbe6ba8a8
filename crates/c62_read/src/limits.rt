//! How large texts, blocks and programs may be.

/// The longest text, in bytes.
pub const MOST_BYTES: usize = 1_048_576;

/// The most instructions of a block. So the number of each is a byte.
pub const MOST_INSTRUCTIONS: usize = 256;

/// The most blocks of a program.
pub const MOST_BLOCKS: usize = 64;
