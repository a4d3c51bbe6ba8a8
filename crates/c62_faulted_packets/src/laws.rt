//! Laws of the faults of packets that run. The functions do nothing: what each ensures is a law, proved of the definitions that all other
//! contracts cite.

ghost use Rattle.std.specs.Prelude.{ℕ, List};
ghost use Rattle.c62_serial.specs.State.{Machine, IsSound};
ghost use Rattle.c62_serial.specs.declared.chain.Chain.{Chain as Ran};
ghost use Rattle.c62_packet.specs.Packed.{Packed};
ghost use Rattle.c62_flight.specs.declared.stop.Stop.{Stop};
ghost use Rattle.c62_flight.specs.Text.{Text};
ghost use Rattle.c62_faulted.specs.declared.fault.Fault.{Fault};
ghost use Rattle.c62_faulted_packets.specs.Laws.{TellsFirstsOfFlight, TellsFirstsOfPackets, TellsFlightLines, TellsPacketLines};

/// Of each line the first fault of a run is told, and no other.
pub fn tells_firsts()
    ensures packets { (packets : List Packed) (opening : Machine) (limit : ℕ) (told : List Fault)
        → TellsFirstsOfPackets packets opening limit told }
    ensures flight { (text : Text) (first limit : ℕ) (opening : Machine) (told : List Fault)
        → TellsFirstsOfFlight text first limit opening told }
{}

/// The lines that are told are those that the report of the run has.
pub fn tells_lines()
    ensures packets { (packets : List Packed) (opening : Machine) (limit : ℕ) (told : List Fault) (chain : Ran) (cycles : ℕ) (final : Machine)
        → IsSound opening → TellsPacketLines packets opening limit told chain cycles final }
    ensures flight { (text : Text) (first limit : ℕ) (opening : Machine) (told : List Fault) (stop : Stop) (cycles : ℕ) (final : Machine)
        → TellsFlightLines text first limit opening told stop cycles final }
{}
