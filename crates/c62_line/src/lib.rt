//! Reads a line of serial assembly text.
#![tactic(auto)]

mod fault;
mod form;
mod label;
mod laws;
mod limits;
mod line;
mod mnemonic;
mod operand;
mod reading;
mod unit;

pub use fault::{Cause, ReadFault};
pub use label::{Label, copied_label};
pub use laws::{
    case_says_nothing, comments_change_no_line, exchanged_operations_keep_the_effect,
    labels_read_back, pauses_read_back, pseudo_operations_keep_the_effect, spelled_lines_read_back,
    star_lines_say_nothing,
};
pub use limits::MOST_LINE;
pub use line::{
    first_condition, first_label, first_mnemonic, is_storing, label_field, owned_label, read_head,
    read_insn, read_rest, unit_behind,
};
pub use mnemonic::Mnemonic;
pub use reading::{Reading, Statement, What};
pub use unit::{Mark, WrittenUnit};
