//! Laws of the faults of a run. The functions do nothing: what each ensures is a law, proved of the definitions that all other
//! contracts cite.

ghost use Rattle.std.specs.Prelude.{ℕ, List, IsTrue};
ghost use Rattle.c62_read.specs.Block.{Serial};
ghost use Rattle.c62_serial.specs.State.{Machine, IsSound};
ghost use Rattle.c62_serial.specs.declared.chain.Chain.{Chain};
ghost use Rattle.c62_faulted.specs.declared.fault.Fault.{Fault};
ghost use Rattle.c62_faulted.specs.Laws.{HasItsCause, TellsFirstsOfRun, TellsLines};

/// An access is good, or it has a cause for which it faults, and which is true of it.
pub fn has_its_cause()
    ensures { (address size : ℕ) → HasItsCause address size }
{}

/// Of each line the first fault of a run is told, and no other.
pub fn tells_firsts()
    ensures { (program : List Serial) (opening : Machine) (limit : ℕ) (told : List Fault)
        → TellsFirstsOfRun program opening limit told }
{}

/// The lines that are told are those that the report of the run has.
pub fn tells_lines()
    ensures { (program : List Serial) (opening : Machine) (limit : ℕ) (told : List Fault) (chain : Chain) (final : Machine)
        → IsSound opening → TellsLines program opening limit told chain final }
{}
