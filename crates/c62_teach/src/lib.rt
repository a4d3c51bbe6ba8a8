//! What `lint` answers, what `--explain` tells behind the line that refuses a text and of packets that aren't the same, and `--strict` and
//! `--apart` behind the report of a run.
#![tactic(auto)]

mod apart;
mod differing;
mod differing_loops;
mod faults;
pub mod laws;
mod linted;
mod meant;
mod other;
mod packets;
mod settings;
mod teaching;
mod words;

pub use apart::{Watched, apart_told};
pub use c62_explain_packets::Linted;
pub use faults::faults_told;
pub use linted::lint_text;
pub use settings::setting_taught;
pub use teaching::{Names, taught};
pub use words::{
    Kind, Linting, is_explained, is_lint, is_of_memory, is_strict, is_watched, lint_blame,
    linting_of, names_memory, plain_words,
};
