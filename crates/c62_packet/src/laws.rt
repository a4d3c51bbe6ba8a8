//! Laws of the definitions. The functions do nothing: what each ensures is a law.

ghost use Rattle.std.specs.Prelude.{ℕ, List};
ghost use Rattle.c62_rules.specs.PacketRules.{Issues};
ghost use Rattle.c62_packet.specs.declared.placed.Placed.{Placed as Placement};
ghost use Rattle.c62_packet.specs.Packed.{Packed};
ghost use Rattle.c62_packet.specs.Fault.{HasNoFault, HasOneFault};
ghost use Rattle.c62_packet.specs.Rules.{AreKeptInEach};

/// Instructions keep the packet rules exactly where they keep each rule in each cycle.
pub fn rules_hold_cycle_by_cycle()
    ensures { (issues : Issues) → AreKeptInEach issues }
{}

/// A packet block has no fault.
pub fn packet_blocks_have_no_fault()
    ensures { (block : Packed) → HasNoFault block }
{}

/// Instructions that are written with so many cycles have one fault at most.
pub fn blocks_have_one_fault()
    ensures { (cycles : ℕ) (placed : List Placement) → HasOneFault cycles placed }
{}
