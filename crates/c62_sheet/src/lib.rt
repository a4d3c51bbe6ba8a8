//! Sets of placements of a block's instructions: which are lawful, what is ready, and where it goes.
#![tactic(auto)]

mod chain;
mod counts;
mod earliest;
mod early;
mod entry;
mod index;
mod judge;
pub mod laws;
mod ready;
mod rows;
mod sheet;
mod standing;
mod victim;
mod whole;

pub use chain::{Chained, led_from};
pub use entry::{Counts, Entry, Rule, Spot, Unlawful, Who};
pub use sheet::Sheet;
pub use whole::{are_lawful, least_in};
