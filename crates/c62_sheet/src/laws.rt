//! Laws of sets of placements, in the words of the rules. The functions do nothing: what each ensures is a law, proved of
//! the definitions that the contracts of a [`Sheet`](crate::Sheet) cite.

ghost use Rattle.std.specs.Prelude.{List};
ghost use Rattle.c62_op.specs.declared.register.Side.{Side};
ghost use Rattle.c62_insn.specs.declared.insn.Insn.{Insn};
ghost use Rattle.std.specs.Prelude.{ℕ};
ghost use Rattle.c62_sheet.specs.Lawful.{Spots};
ghost use Rattle.c62_sheet.specs.Laws.{HasOneLeast, HasOnePick, HasSomeReady, FindsRoom, CanTakeOut, IsLawfulEmpty, DirectOnesTellReady, DirectOnesTellEarly};

/// An instruction has one least spot at most.
#[tactic(auto, using(crate::proofs::Search::least_unique))]
pub fn has_one_least()
    ensures { (block : List Insn) (set : Spots) (i : ℕ) → HasOneLeast block set i }
{}

/// A side has one pick at most.
#[tactic(auto, using(crate::proofs::Picks::pick_unique))]
pub fn has_one_pick()
    ensures { (block : List Insn) (set : Spots) (of : Side) → HasOnePick block set of }
{}

/// Where not every instruction is placed, some side has a ready one: the lowest that is not placed is ready.
#[tactic(auto, using(crate::proofs::Picks::some_ready))]
pub fn has_some_ready()
    ensures { (block : List Insn) (set : Spots) → HasSomeReady block set }
{}

/// Where all that is placed stands at least five cycles before cycle 5·k, each ready instruction may be placed in that
/// cycle, so it has a least spot, no later. The k-th placing (from 0) of a set from which nothing was withdrawn therefore
/// finds a spot by cycle 5·k.
#[tactic(auto, using(crate::proofs::Room::finds_room))]
pub fn finds_room()
    ensures { (block : List Insn) (set : Spots) → FindsRoom block set }
{}

/// A lawful set stays lawful where an instruction is taken out that no placed one depends on.
pub fn can_take_out()
    ensures { (block : List Insn) (set : Spots) → CanTakeOut block set }
{}

/// Nothing placed is lawful.
pub fn is_lawful_empty()
    ensures { (block : List Insn) → IsLawfulEmpty block }
{}

/// On a lawful set an instruction that is not placed is ready exactly where none of those that it depends on directly is
/// missing.
#[tactic(auto, using(crate::proofs::Missing::direct_ones_tell_ready))]
pub fn direct_ones_tell_ready()
    ensures { (block : List Insn) (set : Spots) → DirectOnesTellReady block set }
{}

/// On a lawful set the early cycle of a ready instruction is the first that its direct dependences allow.
pub fn direct_ones_tell_early()
    ensures { (block : List Insn) (set : Spots) → DirectOnesTellEarly block set }
{}
