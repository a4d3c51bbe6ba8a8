//! Laws of whole runs. The functions do nothing: what each ensures is a law, proved of the definitions that the contracts of
//! `check_loops` and `pipeline` cite.

ghost use Rattle.std.specs.Prelude.{ℕ, List};
ghost use Rattle.clap.specs.Words.{Text as Name};
ghost use Rattle.c62_op.specs.declared.register.Reg.{Reg as Register};
ghost use Rattle.c62_read.specs.Block.{Serial};
ghost use Rattle.c62_op.specs.declared.set.InstructionSet.{InstructionSet};
ghost use Rattle.c62_packet.specs.Packed.{Packed};
ghost use Rattle.c62_flight.specs.Text.{Text};
ghost use Rattle.c62_pipeline.specs.declared.written.Pipelining.{Pipelining as Written};
ghost use Rattle.c62_check_whole.specs.Whole.{CheckedLoopsAreSerial};
ghost use Rattle.c62_check_whole.specs.Lined.{FlyAlike};
ghost use Rattle.c62_check_whole.specs.Written.{WrittenIsSerial};

/// Packets of which all is told to be the same run as their whole program: from every sound machine of whose run the promises hold,
/// where the program ends, they do, and leave the same registers, memory and faulted lines, if they have the program's lines.
pub fn checked_loops_are_serial()
    ensures { (trips : List (Name × ℕ)) (apart : List Register) (blocks : List Serial) (packets : Text) (answer : List ℕ)
        → CheckedLoopsAreSerial trips apart blocks packets answer }
{}

/// What is written with pipelined loops runs as its whole program, or it is each block's own packets.
pub fn what_is_written_is_serial()
    ensures { (isa : InstructionSet) (trips : List (Name × ℕ)) (apart : List Register) (blocks : List Serial) (own : List Packed) (written : Written)
        → WrittenIsSerial isa trips apart blocks own written }
{}

/// Texts that hold the same packets fly alike, whatever their lines: they stop in the same way after as many cycles, and leave the
/// same, but for the lines that faulted, which are those of the same places.
pub fn lines_are_names()
    ensures { (text other : Text) → FlyAlike text other }
{}
