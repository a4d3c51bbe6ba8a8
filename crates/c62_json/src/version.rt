//! The version of the program.

/// The version. It stands here alone: CHANGELOG.md begins with it, and the launcher reads it here.
pub const VERSION: &str = "0.10.0";
