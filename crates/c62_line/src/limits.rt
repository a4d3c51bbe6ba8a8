//! How long lines may be.

/// The longest line, in bytes.
pub const MOST_LINE: usize = 255;
