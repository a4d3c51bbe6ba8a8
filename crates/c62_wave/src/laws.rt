//! Laws of a dump. The functions do nothing: what each ensures is a law, proved of the definitions that all other contracts cite.

ghost use Rattle.std.specs.Prelude.{◌≡◌, ◌+◌, ◌*◌, ◌^◌, ◌<◌, ℕ, List, length};
ghost use Rattle.c62_op.specs.declared.register.Reg.{Reg};
ghost use Rattle.c62_trace.specs.Event.{Entry};
ghost use Rattle.c62_wave.specs.declared.value.Value.{Value};
ghost use Rattle.c62_wave.specs.declared.signals.Recent.{Recent};
ghost use Rattle.c62_wave.specs.Laws.{ShowsRegister, LeavesOut, IsTime, StaysInFlight};

/// What is shown of a register is the word that landed in it last, or the one that it held when the run began.
pub fn registers_are_shown()
    ensures { (base : ℕ) (registers : List ℕ) (log : List Entry) (reg : Reg) → length registers ≡ 32 → ShowsRegister base registers log reg }
{}

/// Of signals nothing is written exactly where all of them show what they showed before.
pub fn changes_are_written()
    ensures { (code : ℕ) (before now : List Value) → length before ≡ length now → LeavesOut code before now }
{}

/// The times of a cycle are ten times the cycle, and so many more. A 0 stands before those of the first cycle.
pub fn times_are_tenfold()
    ensures { (cycle more : ℕ) → 0 < cycle → more < 10 → 10 * cycle + more < 2 ^ 64 → IsTime cycle more }
{}

/// What has a delay of four cycles is in flight in the cycle of its issue and in three more, and what has one of five in four more.
pub fn stays_in_flight()
    ensures { (recent : Recent) → recent.now < 255 → StaysInFlight recent }
{}
