//! Laws of lines.

ghost use Rattle.std.specs.Prelude.{◌∷◌, ◌++◌, ℕ, List, IsTrue};
ghost use Rattle.c62_op.specs.declared.register.Unit.{Unit as FunctionalUnit};
ghost use Rattle.c62_insn.specs.declared.insn.Insn.{Insn};
ghost use Rattle.c62_op.specs.declared.set.InstructionSet.{InstructionSet};
ghost use Rattle.c62_op.specs.declared.operands.Op.{Op as Operation};
ghost use Rattle.c62_token.specs.Token.{begins};
ghost use Rattle.c62_line.specs.Line.{is_star};
ghost use Rattle.c62_line.specs.Laws.{LineReadsBack, PauseReadsBack, LabelReadsBack, IsReadable, StarSaysNothing, CommentSaysNothing, CaseSaysNothing, IsRecased, KeepsEffect, KeepEffects};

/// The line that spells an instruction, with its condition, its operation, a unit that takes it by a form of the set and
/// its operands, reads as that instruction on that unit by that set, with or without blanks before it. A branch
/// to a block is spelled with a label, and reads as a branch to that label.
#[tactic(auto, using(crate::proofs::SpelledLine::spelled_back))]
pub fn spelled_lines_read_back()
    ensures { (isa : InstructionSet) (name : ℕ → List ℕ) (insn : Insn) (unit : FunctionalUnit) (blanks : List ℕ)
        → LineReadsBack isa name insn unit blanks }
{}

/// A line of NOP and a number from 1 to 9 reads as so many cycles without an instruction, with or
/// without blanks before it.
#[tactic(auto, using(crate::proofs::WrittenLines::pause_back))]
pub fn pauses_read_back()
    ensures { (isa : InstructionSet) (n : ℕ) (blanks : List ℕ) → PauseReadsBack isa n blanks }
{}

/// A line of a label and a colon reads as that label with nothing behind it.
pub fn labels_read_back()
    ensures { (isa : InstructionSet) (label : List ℕ) → LabelReadsBack isa label }
{}

/// A line that begins with `*` says nothing, as long as it may be read at all.
pub fn star_lines_say_nothing()
    ensures { (isa : InstructionSet) (line : List ℕ) → IsReadable line → IsTrue (begins is_star line) → StarSaysNothing isa line }
{}

/// A line says the same without the comment behind a `;`, and has the same label.
pub fn comments_change_no_line()
    ensures { (isa : InstructionSet) (line rest : List ℕ) → IsReadable (line ++ 59 ∷ rest) → CommentSaysNothing isa line rest }
{}

/// Case says nothing but in labels: two lines that are the same but for the case of letters have one
/// fault, or say the same but for the case of their labels. An `x` behind a `0` keeps its case.
pub fn case_says_nothing()
    ensures { (isa : InstructionSet) (line other : List ℕ) → IsRecased 32 line other → CaseSaysNothing isa line other }
{}

/// Where two sources are exchanged, the operation that stands for the written one does the same.
#[tactic(auto, using(crate::proofs::EffectLaws::exchanged_keeps))]
pub fn exchanged_operations_keep_the_effect()
    ensures { (op turned : Operation) → KeepsEffect op turned }
{}

/// The operations that stand for MV and ZERO move a word, and make 0.
#[tactic(auto, using(crate::proofs::EffectLaws::pseudo_keeps))]
pub fn pseudo_operations_keep_the_effect()
    ensures { KeepEffects }
{}
