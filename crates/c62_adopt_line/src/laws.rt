//! Laws of lines of packets.

ghost use Rattle.c62_op.specs.declared.set.InstructionSet.{InstructionSet};
ghost use Rattle.std.specs.Prelude.{ℕ, ℤ, List};
ghost use Rattle.c62_op.specs.declared.register.Unit.{Unit as FunctionalUnit};
ghost use Rattle.c62_insn.specs.declared.insn.Insn.{Insn};
ghost use Rattle.c62_adopt_line.specs.Laws.{AccessesMove, CommentSaysNothing, CountsBytes, SaysWhole, IsPlain, ReadsAsSerial, InstructionReads, PauseReads, LabelReads, EmptyReads};

/// An instruction that is read has its unit written, a line's label and that to which a branch goes are labels, no other
/// instruction goes to a block, and a line with bars has no label.
pub fn lines_are_whole()
    ensures { (isa : InstructionSet) (bytes : List ℕ) → SaysWhole isa bytes }
{}

/// A line of serial text that has its unit says the same as a line of packets, alone and behind bars: where it has neither a
/// label, nor a dot but its unit's, nor round brackets, nor another name of B before its unit.
pub fn serial_lines_read_as_they_are()
    ensures { (isa : InstructionSet) (line : List ℕ) → IsPlain line → ReadsAsSerial isa line }
{}

/// The lines of an instruction in a listing, that of the first of a packet and that of another, read as this instruction on its
/// unit.
pub fn listed_instructions_read_as_they_are()
    ensures { (isa : InstructionSet) (name : ℕ → List ℕ) (insn : Insn) (unit : FunctionalUnit) → InstructionReads isa name insn unit }
{}

/// The lines of a listing without instructions, which are those of pauses, labels and nothing, read as what they say there.
pub fn other_listed_lines_read_as_they_are()
    ensures pauses { (isa : InstructionSet) (n : ℕ) → PauseReads isa n }
    ensures labels { (isa : InstructionSet) (label : List ℕ) → LabelReads isa label }
    ensures empty { (isa : InstructionSet) → EmptyReads isa }
{}

/// A comment behind a line, of allowed bytes and in a line of at most 255, changes neither what the line says nor its fault.
pub fn comments_say_nothing()
    ensures { (isa : InstructionSet) (line rest : List ℕ) → CommentSaysNothing isa line rest }
{}

/// An offset in round brackets counts bytes: it is so many accesses exactly where it is that many times their size, which is 4 for
/// words, 2 for halves and 1 for bytes.
pub fn offsets_count_bytes()
    ensures sizes { AccessesMove }
    ensures counts { (size count : ℕ) (offset : ℤ) → CountsBytes size count offset }
{}
