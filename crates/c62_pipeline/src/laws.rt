//! The law of packets that are written with pipelined loops. The function does nothing: what it ensures is proved of the definitions that the
//! contract of [`crate::pipeline`] cites.

ghost use Rattle.c62_op.specs.declared.set.InstructionSet.{InstructionSet};
ghost use Rattle.std.specs.Prelude.{ℕ, List};
ghost use Rattle.clap.specs.Words.{Text as Name};
ghost use Rattle.c62_op.specs.declared.register.Reg.{Reg as Register};
ghost use Rattle.c62_read.specs.Block.{Serial};
ghost use Rattle.c62_packet.specs.Packed.{Packed};
ghost use Rattle.c62_pipeline.specs.declared.written.Pipelining.{Pipelining as Written};
ghost use Rattle.c62_pipeline.specs.Laws.{WhatIsWrittenIsDone};

/// What is written does all that the program does, loop by loop and block by block, or it is each block's own packets.
pub fn what_is_written_is_done()
    ensures { (isa : InstructionSet) (trips : List (Name × ℕ)) (apart : List Register) (blocks : List Serial) (own : List Packed) (written : Written)
        → WhatIsWrittenIsDone isa trips apart blocks own written }
{}
