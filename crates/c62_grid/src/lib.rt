//! The rows of a picture: what is issued in each cycle on each unit, over which path, and what lands (docs/SHOW.md, "The grid").
#![tactic(auto)]

mod grid;
mod landing;
mod paths;
mod widths;
pub mod words;

pub use grid::{Grid, mark, packet, standing};
pub use landing::{Landed, Landing, landings_of, push_all_landed, push_landed_name};
pub use paths::{ALL_PATHS, path_name, taking};
pub use widths::Widths;
