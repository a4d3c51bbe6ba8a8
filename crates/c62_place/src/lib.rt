//! Where in its line a fault of a serial text is found.
#![tactic(auto)]

mod place;
mod shape;
mod sort;
mod token;

pub use place::{Place, place_of, token_at};
pub use shape::{Form, operands_end, takes_form};
pub use sort::Sort;
