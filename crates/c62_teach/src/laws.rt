//! Laws of what is told. The functions do nothing: what each ensures is a law, proved of the definitions that all other contracts cite.

ghost use Rattle.c62_op.specs.declared.set.InstructionSet.{InstructionSet};
ghost use Rattle.std.specs.Prelude.{ℕ, List};
ghost use Rattle.c62_read.specs.Program.{Name};
ghost use Rattle.c62_packet.specs.Packed.{Packed};
ghost use Rattle.c62_flight.specs.Text.{Text};
ghost use Rattle.c62_command.specs.declared.command.Course.{Course};
ghost use Rattle.c62_command.specs.declared.command.Packing.{Packing};
ghost use Rattle.c62_command.specs.declared.flight.FlightCourse.{FlightCourse};
ghost use Rattle.c62_command.specs.declared.setting.Setting.{Setting};
ghost use Rattle.c62_answer.specs.declared.outcome.Outcome.{Outcome};
ghost use Rattle.c62_teach.specs.Faulted.{TellsFlightReport, TellsItsReport, TellsPackedReport, TellsPacketReport};

/// The accesses that are told behind the report of a strict run are of the lines that the report names.
pub fn tells_what_is_reported()
    ensures serial { (isa : InstructionSet) (settings : List Setting) (course : Course) (outcome : Outcome) (text answer more : List ℕ)
        → TellsItsReport isa settings course outcome text answer more }
    ensures packed { (isa : InstructionSet) (packing : Packing) (settings : List Setting) (course : Course) (outcome : Outcome) (text answer more : List ℕ)
        → TellsPackedReport isa packing settings course outcome text answer more }
    ensures packets { (packets : List Packed) (settings : List Setting) (course : Course) (outcome : Outcome) (answer more : List ℕ)
        → TellsPacketReport packets settings course outcome answer more }
    ensures flight { (flying : Text) (labels : List (Name × ℕ)) (first : ℕ) (settings : List Setting) (course : FlightCourse) (outcome : Outcome)
        (answer more : List ℕ) → TellsFlightReport flying labels first settings course outcome answer more }
{}
