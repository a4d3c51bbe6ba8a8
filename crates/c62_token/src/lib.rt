//! Cuts a line of serial assembly text into tokens, and says what each is.
#![tactic(auto)]

mod kind;
mod laws;
pub mod number;
mod scan;
mod token;

pub use kind::{Kind, mark};
pub use laws::{
    comments_say_nothing, numbers_read_back, registers_read_back, tokens_are_the_bytes,
    tokens_are_the_longest,
};
pub use scan::{Scan, scan_line};
pub use token::{Tokens, begins_with, is_mark};
