//! Laws of the definitions. The functions do nothing: what they ensure are laws.

ghost use Rattle.std.specs.Prelude.{ℕ, List, length};
ghost use Rattle.c62_read.specs.Block.{Serial};
ghost use Rattle.c62_serial.specs.State.{Machine};
ghost use Rattle.c62_serial.specs.declared.chain.Chain.{Chain as Ran};
ghost use Rattle.c62_packet.specs.Packed.{Packed};
ghost use Rattle.c62_flight.specs.declared.stop.Stop.{Stop};
ghost use Rattle.c62_flight.specs.Text.{Text};
ghost use Rattle.c62_exec.specs.declared.tally.Count.{Count};
ghost use Rattle.c62_profile.specs.Flights.{FlightAddsUp};
ghost use Rattle.c62_profile.specs.declared.tally.Tally.{Tally as Counted};
ghost use Rattle.c62_profile.specs.Visits.{AddsUp, CountsPackets, CountsProgram, cycles_each, insns_each};

/// The rows of a profile add up to what the report tells of the run: how often blocks were run, and what they took together.
pub fn profiles_add_up()
    ensures packets { (packets : List Packed) (opening : Machine) (limit : ℕ) (chain : Ran) (final : Machine) (tally : Counted)
        → CountsPackets packets opening limit chain final tally → AddsUp (length packets) (cycles_each packets) chain tally }
    ensures program { (program : List Serial) (opening : Machine) (limit : ℕ) (chain : Ran) (final : Machine) (tally : Counted)
        → CountsProgram program opening limit chain final tally → AddsUp (length program) (insns_each program) chain tally }
{}

/// The cycles of all rows of a flight's table are those of the report.
pub fn flights_add_up()
    ensures { (text : Text) (first limit : ℕ) (opening : Machine) (stop : Stop) (cycles : ℕ) (final : Machine) (counts : List Count)
        → FlightAddsUp text first limit opening stop cycles final counts }
{}
