//! Laws of raised heights, in the words of the rules. The functions do nothing: what each ensures is a law.

ghost use Rattle.std.specs.Prelude.{List};
ghost use Rattle.c62_insn.specs.declared.insn.Insn.{Insn};
ghost use Rattle.c62_raised.specs.Laws.{RaisedBoundHolds, SchedulesAreSeatedAcross, IsSharper, HasOneRaisedLength};

/// Where each instruction of a block has a cycle and a unit that takes it, on either side and whichever is written, so that
/// all bounds are kept and no two are on one unit, data path or cross path in a cycle, they take no fewer cycles than the
/// critical path, than what some need has of cycles, and than the raised bound, which [`crate::raised_length`] answers.
pub fn raised_bound_holds()
    ensures { (block : List Insn) → RaisedBoundHolds block }
{}

/// In a lawful schedule that places all instructions each has a cycle and a unit so.
pub fn schedules_are_seated_across()
    ensures { (block : List Insn) → SchedulesAreSeatedAcross block }
{}

/// The raised bound of a block is at least its least length, which [`c62_bound::least_length`] answers.
pub fn is_sharper()
    ensures { (block : List Insn) → IsSharper block }
{}

/// A block has one raised bound.
pub fn has_one_raised_length()
    ensures { (block : List Insn) → HasOneRaisedLength block }
{}
