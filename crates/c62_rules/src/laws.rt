//! Laws of the rules between instructions. The functions do nothing: what each ensures is a law, proved of the
//! definitions that all other contracts cite.

ghost use Rattle.std.specs.Prelude.{ℕ, List};
ghost use Rattle.c62_op.specs.declared.register.Cond.{Cond as Condition};
ghost use Rattle.c62_insn.specs.declared.insn.Insn.{Insn};
ghost use Rattle.c62_rules.specs.PacketRules.{Issue, Issues};
ghost use Rattle.c62_rules.specs.Exclusive.{OppositeIsEither, ExclusiveIsTold};
ghost use Rattle.c62_rules.specs.Disjoint.{Range, HasSmallOffset, LiesAtItsRange, ApartShareNothing, MeetInAByte, DisjointIsTold};
ghost use Rattle.c62_rules.specs.Dependence.{BoundsKeepLandings};
ghost use Rattle.c62_rules.specs.Breaches.{TwoOnOneUnit, TwoOverCrossPath, TwoOverDataPath, FiveReads, TwoLandings};
ghost use Rattle.c62_rules.specs.Twins.{AreInOrder};
ghost use Rattle.c62_rules.specs.Capacity.{HasItsPlace};
ghost use Rattle.c62_rules.specs.declared.resource.Resource.{Resource as Shared};
ghost use Rattle.c62_rules.specs.Manual.{AreTheRules};
ghost use Rattle.c62_rules.specs.Part.{PartKeepsRules, AnyOrderKeepsRules, AnyOrderIsAsLong};

/// The packet rules P1 to P4, as the manual has them, are one rule: of no resource more is taken than there is.

pub fn rules_are_capacities()
    ensures { (issues : Issues) → AreTheRules issues }
{}

/// No two resources have one place.
pub fn resources_have_places()
    ensures { (r : Shared) → HasItsPlace r }
{}

/// Part of what keeps the packet rules keeps them, under whatever numbers it is issued: the rules ask neither for
/// the order of what is issued nor for numbers under which nothing is.
pub fn part_keeps_rules()
    ensures part { (issues others : Issues) → PartKeepsRules issues others }
    ensures any_order { (issues others : Issues) → AnyOrderKeepsRules issues others }
{}

/// The breaches of the packet rules that `docs/MACHINE.md` gives as examples are breaches.
pub fn breaches()
    ensures units { TwoOnOneUnit }
    ensures cross_paths { TwoOverCrossPath }
    ensures data_paths { TwoOverDataPath }
    ensures reads { FiveReads }
    ensures landings { TwoLandings }
{}

/// Instructions of which at most one is a branch take as long in whatever order they are listed.
pub fn any_order_is_as_long()
    ensures { (issues others : List Issue) → AnyOrderIsAsLong issues others }
{}

/// Issues that keep the bounds of the dependences between them keep P5: of two writers of one register the later one
/// lands later, or they are exclusive, and then nothing lands in the register of their conditions between their issues.
#[tactic(auto, using(crate::proofs::Exclusive::one_landing))]
pub fn bounds_keep_landings()
    ensures { (block : List Insn) (issues : Issues) → BoundsKeepLandings block issues }
{}

/// Conditions are opposite exactly where they test one register and, whatever it holds, exactly one of them holds.
pub fn opposite_conditions_hold_in_turn()
    ensures { (one other : Condition) → OppositeIsEither one other }
{}

/// Two instructions of a block are exclusive exactly where they stand under opposite conditions on one register that
/// nothing from the first one on and before the second writes: the first one counts, the second does not.
pub fn exclusive_is_told()
    ensures { (block : List Insn) (i j : ℕ) (p q : Insn) → ExclusiveIsTold block i j p q }
{}

/// A constant offset of an access is 0 to 32,767.
pub fn offsets_are_small()
    ensures { (insn : Insn) → HasSmallOffset insn }
{}

/// The access of an instruction with a range lies at the word of its base plus that range, modulo 2^32, where it ends
/// within memory.
pub fn accesses_lie_at_their_ranges()
    ensures { (insn : Insn) → LiesAtItsRange insn }
{}

/// Two ranges from one word of the base that are apart have no byte of memory in common, and two that are not have one.
pub fn apart_ranges_share_nothing()
    ensures apart { (p q : Insn) → ApartShareNothing p q }
    ensures meet { (one other : Range) → MeetInAByte one other }
{}

/// Two accesses of a block are disjoint exactly where their ranges are from one base and apart, and nothing from the
/// first one on and before the second writes the base: the first one counts, the second does not.
pub fn disjoint_is_told()
    ensures { (block : List Insn) (i j : ℕ) (p q : Insn) → DisjointIsTold block i j p q }
{}

/// Of two instructions of a block that are the same but for the written unit, and no branches, the later one comes at least
/// a cycle behind the earlier one, wherever all dependences keep their distances.
pub fn twins_in_order()
    ensures { (block : List Insn) → AreInOrder block }
{}
