//! Versions of the placements, for planners that never wait.
#![tactic(auto)]

mod desk;
mod history;
mod rule;
mod version;
mod viewer;

pub use c62_board::{CommitFault, Proposal};
pub use desk::{Desk, DeskFault, desk_of};
pub use viewer::{Told, Viewer};
