//! Laws of texts of packets and listings.

ghost use Rattle.c62_op.specs.declared.set.InstructionSet.{InstructionSet};
ghost use Rattle.std.specs.Prelude.{Bool, List};
ghost use Rattle.c62_packet.specs.Packed.{Packed};
ghost use Rattle.c62_adopt_back.specs.Laws.{ListingsStay};

/// The listing of packets is adopted as these packets, drained or not, and listed as it stands, to the byte: where each block
/// without a label is the first or stands behind one with a branch.
pub fn listings_are_adopted_as_themselves()
    ensures { (isa : InstructionSet) (drain : Bool) (packets : List Packed) → ListingsStay isa drain packets }
{}
