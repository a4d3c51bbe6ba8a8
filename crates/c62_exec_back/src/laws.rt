//! Laws of texts of packets in flight.

ghost use Rattle.c62_op.specs.declared.set.InstructionSet.{InstructionSet};
ghost use Rattle.std.specs.Prelude.{ℕ, List};
ghost use Rattle.c62_packet.specs.Packed.{Packed};
ghost use Rattle.c62_flight.specs.Text.{Text};
ghost use Rattle.c62_exec_back.specs.Spaced.{SpacedFlies};
ghost use Rattle.c62_exec_back.specs.Laws.{AdoptedFlies, ListingsFly};

/// Blocks of packets that are laid out as the rows of a text, with idle rows between them, fly as their
/// chain runs.
pub fn spaced_blocks_fly()
    ensures { (text : Text) (packets : List Packed) → SpacedFlies text packets }
{}

/// What `adopt` takes as it stands `exec` reads, too, and it flies as its packets run: from every sound
/// machine it leaves the registers, memory and faulted lines that their chain leaves, in as many cycles
/// or more.
pub fn adopted_text_flies()
    ensures { (isa : InstructionSet) (text : List ℕ) → AdoptedFlies isa text }
{}

/// A listing is read in flight, and flies as what it lists runs.
pub fn listings_fly()
    ensures { (isa : InstructionSet) (packets : List Packed) → ListingsFly isa packets }
{}
