//! Laws of texts of packets and their listings.

ghost use Rattle.c62_op.specs.declared.set.InstructionSet.{InstructionSet};
ghost use Rattle.std.specs.Prelude.{ℕ, Bool, List};
ghost use Rattle.c62_packet.specs.Packed.{Packed};
ghost use Rattle.c62_adopt.specs.Cycles.{AccountsForCycles};
ghost use Rattle.c62_adopt.specs.Laws.{AdoptsListings, HasOneAnswer, DrainsNothing};

/// The listing of what a text is adopted as is read as the same packets, but for the lines of their instructions.
pub fn what_is_adopted_is_read_back()
    ensures { (isa : InstructionSet) (drain : Bool) (text : List ℕ) → AdoptsListings isa drain text }
{}

/// A text has one answer: it is adopted in one way, or refused in one way. Only memory that ran out may come in its place.
pub fn texts_have_one_answer()
    ensures { (isa : InstructionSet) (drain : Bool) (text : List ℕ) → HasOneAnswer isa drain text }
{}

/// What is adopted as it stands is adopted as the same packets where it is drained, and no cycle is added.
pub fn texts_that_stand_lack_nothing()
    ensures { (isa : InstructionSet) (text : List ℕ) (packets : List Packed) → DrainsNothing isa text packets }
{}

/// The cycles of a text, and those that were added to it, are those before its first block, those of its listing, and those that
/// each block has in the text behind its packets, in which nothing is issued or in flight. So the listing moves nothing within a
/// block, and is shorter by just these.
pub fn cycles_are_accounted_for()
    ensures { (isa : InstructionSet) (drain : Bool) (text : List ℕ) → AccountsForCycles isa drain text }
{}
