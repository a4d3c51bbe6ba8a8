//! The law of loops that are told to be the same. The function does nothing: what it ensures is proved of the definitions that the
//! contract of [`crate::check_loop`] cites.

ghost use Rattle.std.specs.Prelude.{ℕ, Bool};
ghost use Rattle.c62_insn.specs.declared.insn.Insn.{Insn};
ghost use Rattle.c62_flight.specs.Text.{Text};
ghost use Rattle.c62_loop.specs.Loop.{Region};
ghost use Rattle.c62_pair.specs.declared.reg_set.RegSet.{RegSet};
ghost use Rattle.c62_check_loop.specs.Laws.{SameIsSerial, SameButIsSerial};

/// Packets that are told to be the same do what the serial loop does for every number of trips from that which is told on, in as
/// many cycles more a trip as are told.
pub fn same_is_serial()
    ensures { (promised : Insn → Insn → Bool) (region : Region) (packets : Text) (trips cycles first last : ℕ)
        → SameIsSerial promised region packets trips cycles first last }
{}

/// Packets that are told to be the same but for registers do so, but for these and for faulted lines of loads into them.
pub fn same_but_is_serial()
    ensures { (promised : Insn → Insn → Bool) (region : Region) (packets : Text) (trips cycles first last : ℕ) (but : RegSet)
        → SameButIsSerial promised region packets trips cycles first last but }
{}
