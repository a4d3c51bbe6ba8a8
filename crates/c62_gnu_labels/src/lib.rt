//! Labels that begin with a dot, as GNU's compilers write them: what stands in their place in serial text, and the words that ask for
//! that by `--labels gnu` (docs/SERIAL_TEXT.md, "Labels of GNU's compilers").
#![tactic(auto)]

mod laws;
mod text;
mod words;

pub use laws::{lines_stay, names_come_back, texts_without_them_stay};
pub use text::relabelled;
pub use words::{asks_labels, other_words};
