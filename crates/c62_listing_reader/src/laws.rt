//! Laws of the definitions. The functions do nothing: what each ensures is a law.

ghost use Rattle.c62_op.specs.declared.set.InstructionSet.{InstructionSet};
ghost use Rattle.std.specs.Prelude.{◌≡◌, ℕ, List};
ghost use Rattle.c62_packet.specs.declared.limits.TheConstants.{MOST_CYCLES};
ghost use Rattle.c62_packet.specs.Packed.{Packed};
ghost use Rattle.c62_listing_reader.specs.declared.reader.TheConstants.{MOST_BYTES};
ghost use Rattle.c62_listing_reader.specs.Laws.{IsListedBack, AreOneReading, IsReadBack, IsReadExactly};

/// A listing has at most 8,388,608 bytes, and a block of it 2,048 cycles.
pub fn limits_are()
    ensures bytes { MOST_BYTES ≡ 8388608 }
    ensures cycles { MOST_CYCLES ≡ 2048 }
{}

/// What is read of a text is listed as that text, byte for byte.
pub fn what_is_read_is_listed_back()
    ensures { (isa : InstructionSet) (text : List ℕ) (packets : List Packed) → IsListedBack isa text packets }
{}

/// A text has one reading: packets that are read of it are equal, with the numbers of its lines.
pub fn texts_have_one_reading()
    ensures { (isa : InstructionSet) (text : List ℕ) (packets others : List Packed) → AreOneReading isa text packets others }
{}

/// The listing of packets that it shows whole is read as these packets, but for the lines of their instructions.
pub fn what_is_listed_is_read_back()
    ensures { (isa : InstructionSet) (packets : List Packed) → IsReadBack isa packets }
{}

/// A text is read exactly where it is the listing of proper packets: few packet blocks with labels of
/// which no two are the same, whose branches go to labelled blocks, and of which each without a label has
/// instructions.
pub fn listings_alone_are_read()
    ensures { (isa : InstructionSet) (text : List ℕ) → IsReadExactly isa text }
{}
