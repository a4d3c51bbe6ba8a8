//! Laws of the events of a run. The functions do nothing: what each ensures is a law, proved of the definitions that all other
//! contracts cite.

ghost use Rattle.std.specs.Prelude.{ℕ, List};
ghost use Rattle.c62_serial.specs.State.{Machine};
ghost use Rattle.c62_packet.specs.declared.placed.Placed.{Placed};
ghost use Rattle.c62_meaning.specs.Packet.{Did};
ghost use Rattle.c62_trace.specs.Laws.{AreTold};

/// A write is told in the cycle in which it lands, and a store in that of its issue, and each that is told is one of an instruction
/// that was issued. Each issue, store and landing is told once.
pub fn events_are_told()
    ensures { (placed : List Placed) (opening : Machine) (did : Did) (cycle : ℕ) → AreTold placed opening did cycle }
{}
