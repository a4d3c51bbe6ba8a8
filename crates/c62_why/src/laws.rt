//! Laws of what keeps instructions in their cycles. The functions do nothing: what each ensures is a law.

ghost use Rattle.std.specs.Prelude.{ℕ, List};
ghost use Rattle.c62_insn.specs.declared.insn.Insn.{Insn};
ghost use Rattle.c62_rules.specs.declared.resource.Resource.{Resource};
ghost use Rattle.c62_packet.specs.declared.placed.Placed.{Placed};
ghost use Rattle.c62_why.specs.declared.taken.Taken.{Taken as Lack};
ghost use Rattle.c62_why.specs.Laws.{LackingBreaks, EnoughIsKept, SlackIsExact};

/// An instruction that is put a cycle earlier, with all others where they are, breaks there the packet rule of what it lacks;
/// and of what there is enough for it there is enough with it.
pub fn what_is_lacking_breaks_a_rule()
    ensures lacking { (before behind : List Placed) (one : Placed) (r : Resource) (taken : Lack) → LackingBreaks before one behind r taken }
    ensures enough { (before behind : List Placed) (one : Placed) (r : Resource) → EnoughIsKept before one behind r }
{}

/// In schedules of so many cycles no instruction comes later than by its slack, and the cycles in which each has used its
/// slack keep all dependences.
pub fn slack_is_exact()
    ensures { (block : List Insn) (cycles : ℕ) → SlackIsExact block cycles }
{}
