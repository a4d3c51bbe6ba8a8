//! Reads serial assembly text.
#![tactic(auto)]

mod block;
mod jump;
mod laws;
mod limits;
mod missed;
mod program;

pub use block::{Block, Program, SerialInsn};
pub use c62_line::{
    Cause, Label, ReadFault, Reading, What, case_says_nothing, comments_change_no_line,
    exchanged_operations_keep_the_effect, label_field, labels_read_back, pauses_read_back,
    pseudo_operations_keep_the_effect, read_insn, spelled_lines_read_back, star_lines_say_nothing,
};
pub use c62_token::{
    comments_say_nothing, number, numbers_read_back, registers_read_back, tokens_are_the_bytes,
    tokens_are_the_longest,
};
pub use laws::{
    a_program_is_its_lines, a_program_stays_in_its_set, blocks_are_cut_by_labels_and_branches,
    branches_have_targets, case_changes_no_program, comments_change_no_program,
    instructions_read_as_their_lines, labels_are_distinct, limits_are, lines_rise,
};
pub use limits::{MOST_BLOCKS, MOST_BYTES, MOST_INSTRUCTIONS};
pub use program::{BlockReader, TextReader, first_line, label_is, read_program, without_return};
