//! Laws of a plan's definitions, in the words of the rules. The functions do nothing: what each ensures is a law, proved
//! of the definitions that the contracts of a plan cite.

ghost use Rattle.std.specs.Prelude.{List};
ghost use Rattle.c62_insn.specs.declared.insn.Insn.{Insn};
ghost use Rattle.c62_depend.specs.Laws.{HasLatencies, HasHeights, HasNeeds, HasFollowers};
ghost use Rattle.c62_depend.specs.Direct.{DirectOnesBind};

/// A latency is the greatest bound of the cases of dependence that apply, and none where none applies.
pub fn has_latencies()
    ensures { (block : List Insn) → HasLatencies block }
{}

/// A height is at least the delay, and at least each latency plus the height behind it; and it is one of these.
pub fn has_heights()
    ensures { (block : List Insn) → HasHeights block }
{}

/// The list of what an instruction depends on directly has each of these dependences once, by rising numbers, and nothing else.
pub fn has_needs()
    ensures { (block : List Insn) → HasNeeds block }
{}

/// The list of what depends directly on an instruction has each such dependence once, by rising numbers, and nothing else.
pub fn has_followers()
    ensures { (block : List Insn) → HasFollowers block }
{}

/// Each dependence is implied by a chain of direct ones: from the earlier instruction to the later, with latencies that sum
/// to at least its own.
pub fn direct_ones_bind()
    ensures { (block : List Insn) → DirectOnesBind block }
{}
