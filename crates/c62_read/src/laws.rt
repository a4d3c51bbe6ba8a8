//! Laws of texts.

ghost use Rattle.c62_op.specs.declared.set.InstructionSet.{InstructionSet};
ghost use Rattle.std.specs.Prelude.{◌≡◌, ℕ, List};
ghost use Rattle.c62_read.specs.declared.limits.TheConstants.{MOST_BYTES, MOST_INSTRUCTIONS, MOST_BLOCKS};
ghost use Rattle.c62_read.specs.Laws.{CommentsSayNothing, CaseChangesNothing, IsItsLines, HasTargets, HasRisingLines, ReadsAsItsLine, HasCutBlocks, HasItsLabels, StaysInSet};

/// A text has at most 1,048,576 bytes, a block 256 instructions, and a program 64 blocks.
pub fn limits_are()
    ensures bytes { MOST_BYTES ≡ 1048576 }
    ensures instructions { MOST_INSTRUCTIONS ≡ 256 }
    ensures blocks { MOST_BLOCKS ≡ 64 }
{}

/// A text reads as the text without its comments: as the same program, or with the same fault.
#[tactic(auto, using(crate::proofs::CommentLaws::comments_nothing))]
pub fn comments_change_no_program()
    ensures { (isa : InstructionSet) (text other : List ℕ) → CommentsSayNothing isa text other }
{}

/// A text reads the same in any case of its letters, where labels keep theirs, and the `x` of a
/// hexadecimal number: as the same program, or with the same fault.
#[tactic(auto, using(crate::proofs::CaseLaws::case_changes_nothing))]
pub fn case_changes_no_program()
    ensures { (isa : InstructionSet) (text other : List ℕ) → CaseChangesNothing isa text other }
{}

/// The instructions of a program's blocks, one after the other, are what the lines of its text say,
/// in their order and with the numbers of their lines. A branch to a label goes to the block that
/// has it.
#[tactic(auto, using(crate::proofs::ProgramLaws::is_its_lines))]
pub fn a_program_is_its_lines()
    ensures { (isa : InstructionSet) (text : List ℕ) → IsItsLines isa text }
{}

/// Each instruction of a program is one of the set that its text is read in: a program of a core text has none of the full set.
#[tactic(auto, using(crate::proofs::SetLemmas::stays_in_set))]
pub fn a_program_stays_in_its_set()
    ensures { (isa : InstructionSet) (text : List ℕ) → StaysInSet isa text }
{}

/// Each label that a line of a program branches to is the label of one of its blocks.
#[tactic(auto, using(crate::proofs::ProgramLaws::has_targets))]
pub fn branches_have_targets()
    ensures { (isa : InstructionSet) (text : List ℕ) → HasTargets isa text }
{}

/// The lines of a program's instructions rise, from block to block and within each.
#[tactic(auto, using(crate::proofs::ProgramLaws::has_rising_lines))]
pub fn lines_rise()
    ensures { (isa : InstructionSet) (text : List ℕ) → HasRisingLines isa text }
{}

/// Each instruction of a program is what the line of its number says.
#[tactic(auto, using(crate::proofs::ProgramLaws::reads_as_its_line))]
pub fn instructions_read_as_their_lines()
    ensures { (isa : InstructionSet) (text : List ℕ) → ReadsAsItsLine isa text }
{}

/// The blocks of a program are the labels and instructions of its text in their order, cut before
/// each label and behind each branch and nowhere else.
pub fn blocks_are_cut_by_labels_and_branches()
    ensures { (isa : InstructionSet) (text : List ℕ) → HasCutBlocks isa text }
{}

/// The labels of a program's blocks are those of the lines of its text, in their order, and no two
/// are the same.
pub fn labels_are_distinct()
    ensures { (isa : InstructionSet) (text : List ℕ) → HasItsLabels isa text }
{}
