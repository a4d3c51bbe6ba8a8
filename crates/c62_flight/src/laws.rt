//! Laws of flights. The functions do nothing: what each ensures is a law, proved of the definitions
//! that other contracts cite.

ghost use Rattle.std.specs.Prelude.{ℕ, List, All};
ghost use Rattle.c62_serial.specs.State.{Machine, IsSound};
ghost use Rattle.c62_flight.specs.Text.{Text};
ghost use Rattle.c62_flight.specs.Laws.{HasOneFlight, FliesUnderMore};
ghost use Rattle.c62_meaning.specs.Packet.{Did};
ghost use Rattle.c62_packet.specs.declared.placed.Placed.{Placed};
ghost use Rattle.c62_flight.specs.Issued.{Issued};
ghost use Rattle.c62_flight.specs.Told.{TurnIsTold, OverIsTold, ClashIsTold, WordsAreTold};
ghost use Rattle.c62_flight.specs.declared.stop.Stop.{Stop};
ghost use Rattle.c62_flight.specs.Cut.{FliesOn, LandsInFour};
ghost use Rattle.c62_packet.specs.Packed.{Packed, IsPacketBlock};
ghost use Rattle.c62_flight.specs.Laid.{AreLaid, LaidFlies};
ghost use Rattle.c62_flight.specs.Numbered.{FlyTheSame};
ghost use Rattle.c62_flight.specs.Samples.{SamplesFly, SamplesHang, LoopFlies, two_rows, two_blocks};

/// Every text has just one flight from each row, sound machine and limit on, whatever its instructions
/// do.
pub fn has_one_flight()
    ensures { (text : Text) (first limit : ℕ) (opening : Machine) → IsSound opening
        → HasOneFlight text first limit opening }
{}

/// A limit says nothing of a flight that doesn't stop by it, and of which nothing clashes from its
/// path's end on.
pub fn limits_only_stop()
    ensures { (text : Text) (first limit : ℕ) (opening : Machine) (stop : Stop) (cycles : ℕ) (final : Machine)
        → FliesUnderMore text first limit opening stop cycles final }
{}

/// A branch takes effect six cycles behind its issue, where it ran. A row is over in just one cycle:
/// when its cycles are, or sooner, where a branch takes effect.
pub fn branches_end_rows()
    ensures turns { (issued : Issued) (cycle : ℕ) → TurnIsTold issued cycle }
    ensures over { (issued : Issued) (start idle : ℕ) → OverIsTold issued start idle }
{}

/// A branch to a register goes to the row whose address it held, and with any other word out of the
/// text.
pub fn words_name_rows()
    ensures { (text : Text) → WordsAreTold text }
{}

/// Nothing clashes just where of each register and cycle the writes of at most one instruction land.
pub fn clashes_are_landings()
    ensures { (placed : List Placed) (did : Did) → ClashIsTold placed did }
{}

/// When a run stops, all that it issued lands in four cycles.
pub fn lands_in_four()
    ensures { (text : Text) (first limit : ℕ) (opening : Machine) (stop : Stop) (cycles : ℕ) (final : Machine)
        → LandsInFour text first limit opening stop cycles final }
{}

/// A flight goes on from where nothing is in flight as one by itself, from the machine that was left
/// there.
pub fn flies_on()
    ensures { (text : Text) (first more : ℕ) (opening : Machine) (row cycle : ℕ) (middle : Machine)
        → FliesOn text first more opening row cycle middle }
{}

/// Blocks of packets that are laid out as the rows of a text, drained and by the packet rules, fly as
/// their chain runs, where a branch that ends it to the word of a register finds no row's address there.
pub fn laid_blocks_fly()
    ensures { (text : Text) (packets : List Packed) → LaidFlies text packets }
{}

/// The numbers under which branches name labels are names and nothing else: texts that differ in them
/// alone fly the same.
pub fn numbers_are_names()
    ensures { (text other : Text) → FlyTheSame text other }
{}

/// Small texts end as they should.
pub fn samples_fly()
    ensures always { (opening : Machine) → IsSound opening → SamplesFly opening }
    ensures with_a1 { SamplesHang }
    ensures counting { LoopFlies }
    ensures laid { AreLaid two_rows two_blocks }
    ensures blocks { All IsPacketBlock two_blocks }
{}
