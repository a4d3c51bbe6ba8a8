//! Laws of the definitions. The functions do nothing: what they ensure are laws.

ghost use Rattle.std.specs.Prelude.{◌≡◌, ℕ, List, Some, codes};
ghost use Rattle.c62_read.specs.Block.{Serial};
ghost use Rattle.c62_packet.specs.Packed.{Packed};
ghost use Rattle.c62_command.specs.declared.setting.Setting.{Setting as Given};
ghost use Rattle.c62_printing.specs.Printing.{prints as all_lines};
ghost use Rattle.c62_profile.specs.declared.tally.Tally.{Tally as Counted};
ghost use Rattle.c62_read.specs.Program.{Name};
ghost use Rattle.c62_exec.specs.declared.tally.Count.{Count};
ghost use Rattle.c62_profile.specs.Flights.{flight_table};
ghost use Rattle.c62_profile.specs.Table.{packet_table, serial_table};
ghost use Rattle.c62_json_report.specs.AlikeRows.{TellFlight, TellRows, TellValues};
ghost use Rattle.c62_json_report.specs.Prints.{prints};
ghost use Rattle.c62_json_report.specs.Profile.{flight_rows, packet_rows, serial_rows};
ghost use Rattle.c62_op.specs.declared.register.Reg.{Reg as Register};
ghost use Rattle.c62_op.specs.Name.{register_name};
ghost use Rattle.c62_serial.specs.State.{Machine, word_in};
ghost use Rattle.c62_serial.specs.declared.chain.End.{End as Ended};
ghost use Rattle.c62_flight.specs.declared.stop.Stop.{Stop as Stopped};
ghost use Rattle.c62_report.specs.Report.{exit_line, machine_lines};
ghost use Rattle.c62_report.specs.Flight.{stop_line};
ghost use Rattle.c62_json.specs.Document.{count};
ghost use Rattle.c62_json_report.specs.Alike.{HoldsBytes, TellOneEnding, TellSame, found};
ghost use Rattle.c62_json_report.specs.Exit.{exit, stop};
ghost use Rattle.c62_json_report.specs.Machine.{machine_members};

/// What the text of a report tells of the machine, its document tells, and the other way round: of the same registers and words, with
/// the same names and values.
#[tactic(auto, using(crate::proofs::Telling::tell_same))]
pub fn machines_are_told_alike()
    ensures { (machine : Machine) → HoldsBytes machine → TellSame (machine_lines machine) (machine_members machine) }
{}

/// The text and the document tell of one ending: by the same word, with the same value, register and lines.
#[tactic(auto, using(crate::proofs::Endings::end_told, crate::proofs::Endings::stop_told))]
pub fn endings_are_told_alike()
    ensures chain { (end : Ended) → TellOneEnding (exit_line end) (exit end) }
    ensures flight { (stopped : Stopped) → TellOneEnding (stop_line stopped) (stop stopped) }
{}

/// The table of a profile and its document have the same rows: each with the same block, runs, sum and share.
#[tactic(auto, using(crate::proofs::TellingRows::packets_told, crate::proofs::TellingRows::program_told, crate::proofs::TellingFlights::flight_told))]
pub fn rows_are_told_alike()
    ensures packets { (packets : List Packed) (tally : Counted) → TellRows (codes "cycles") (packet_table packets tally) (packet_rows packets tally) }
    ensures program { (program : List Serial) (tally : Counted) → TellRows (codes "instructions") (serial_table program tally) (serial_rows program tally) }
    ensures flight { (labels : List (Name × ℕ)) (counts : List Count) (whole : ℕ) → TellFlight (flight_table labels counts whole) (flight_rows labels whole counts) }
{}

/// Lines that are printed and the document have the same values: each at the same address, with as many bytes.
#[tactic(auto, using(crate::proofs::TellingValues::prints_told))]
pub fn prints_are_told_alike()
    ensures { (machine : Machine) (settings : List Given) → TellValues machine.base (all_lines machine settings) (prints machine settings) }
{}

/// Behind the name of a register a document has the value of this register.
#[tactic(auto, using(crate::proofs::Finding::register_found))]
pub fn registers_are_found()
    ensures { (machine : Machine) (reg : Register) → found (register_name reg) (machine_members machine) ≡ Some (count (word_in machine reg)) }
{}
