//! The laws of loops that are all told to be the same, and of the constants of their counters. The functions do nothing: what each ensures is
//! proved of the definitions that the contract of [`crate::check_loops`] cites.

ghost use Rattle.std.specs.Prelude.{ℕ, Bool, List};
ghost use Rattle.clap.specs.Words.{Text as Name};
ghost use Rattle.c62_op.specs.declared.register.Reg.{Reg as Register};
ghost use Rattle.c62_read.specs.declared.block.SerialInsn.{SerialInsn as Entry};
ghost use Rattle.c62_read.specs.Block.{Serial};
ghost use Rattle.c62_flight.specs.Text.{Text};
ghost use Rattle.c62_check_loops.specs.Constant.{LeavesConstant};
ghost use Rattle.c62_check_loops.specs.Laws.{LoopsDoTheSame};

/// Where all is told to be the same, each loop of the text is done by the packets, from as many trips on as are sure of it, and no
/// block is left that belongs to none. Where it is so but for registers, the answer names them.
pub fn loops_do_the_same()
    ensures { (trips : List (Name × ℕ)) (apart : List Register) (blocks : List Serial) (packets : Text) (answer : List ℕ) (plain : Bool)
        → LoopsDoTheSame trips apart blocks packets answer plain }
{}

/// From every sound machine a register holds the constant that is told of it after a serial run, as a counter does above its loop.
pub fn constants_are_left()
    ensures { (reg : Register) (insns : List Entry) → LeavesConstant reg insns }
{}
