//! Laws of pipelined loops. The functions do nothing: what each ensures is a law, proved of the
//! definitions that other contracts cite.

ghost use Rattle.std.specs.Prelude.{ℕ, List, Bool, false};
ghost use Rattle.c62_insn.specs.declared.insn.Insn.{Insn};
ghost use Rattle.c62_op.specs.declared.register.Reg.{Reg};
ghost use Rattle.c62_read.specs.declared.block.SerialInsn.{SerialInsn};
ghost use Rattle.c62_serial.specs.State.{Machine};
ghost use Rattle.c62_flight.specs.Text.{Text};
ghost use Rattle.c62_flight.specs.Issued.{Visit};
ghost use Rattle.c62_loop.specs.Along.{FliesAlong};
ghost use Rattle.c62_loop.specs.Counter.{CounterStandsApart};
ghost use Rattle.c62_read.specs.Block.{Serial};
ghost use Rattle.c62_loop.specs.Rounds.{GoesRound};
ghost use Rattle.c62_loop.specs.Past.{PipelinedPastTheEnd};
ghost use Rattle.c62_loop.specs.Collapsed.{CollapsedForAllTrips};
ghost use Rattle.c62_loop.specs.Stage.{Straights, Schedule, KeptInMorePasses};
ghost use Rattle.c62_loop.specs.Whole.{IsPipelining, PipelinedForAllTrips};
ghost use Rattle.c62_loop.specs.Sample.{sum, pipelined_sum};
ghost use Rattle.c62_loop.specs.Loop.{Region, Pipelined, IsCountedLoop, IsPipelined, PipelinedIsSerial};

/// A text flies along a path that is known beforehand: where the rows of its visits issue instances of
/// the path, and the path's branches, run serially, lead along these visits, the flight from the first
/// row takes them, comes to their end with nothing in flight, and has left the registers, memory and
/// faulted lines of the serial run.
pub fn flies_along()
    ensures { (text : Text) (first : ℕ) (path : List SerialInsn) (visits : List Visit) (row cycle : ℕ)
        (opening : Machine) → FliesAlong text first path visits row cycle opening }
{}

/// The counter of a loop and the branches that test it stand apart from the work: a path leaves what its
/// work leaves, but for the counter, which its steps lower, to 0 at the least.
pub fn counter_stands_apart()
    ensures { (counter : Reg) (number : ℕ) (path : List SerialInsn) (opening : Machine)
        → CounterStandsApart counter number path opening }
{}

/// A counted loop goes round once for each trip that its counter holds, and then on behind its block: so
/// the serial path of as many trips is what the program's run takes.
pub fn loops_go_round()
    ensures { (program : List Serial) (number : ℕ) (counter : Reg) (body : List SerialInsn) (test : SerialInsn)
        → GoesRound program number counter body test }
{}

/// A pipelined loop is serial: where the rows of its prolog, of so many passes of its kernel and of its
/// epilog issue instances of the work of so many trips of the serial loop, and steps and branches that
/// count the passes, the flight from the first row comes to the row behind the epilog with nothing in
/// flight, and has left the registers, memory and faulted lines of the serial loop, from each sound
/// machine that comes to the label with that many trips in the counter. Accesses that don't meet in the run
/// from there need no order.
pub fn pipelined_is_serial()
    ensures { (region : Region) (pipelined : Pipelined) (trips passes : ℕ)
        → PipelinedIsSerial region pipelined trips passes }
{}

/// Packets may also hold instances of iterations past the last, as a collapsed epilog does, which the serial
/// loop lacks. Where these are no stores, and follow all others in the order whose distances are kept, the
/// flight leaves what the serial loop of so many trips leaves, but for the registers that they write and for
/// faulted lines of theirs.
pub fn pipelined_past_the_end()
    ensures { (region : Region) (past : List SerialInsn) (pipelined : Pipelined) (trips passes : ℕ)
        → PipelinedPastTheEnd region past pipelined trips passes }
{}

/// What keeps its distances in enough passes keeps them in any number beyond: where no instruction has
/// more instances in the prolog than so many, and all bounds of registers and memory, but those that a
/// promise takes away, are kept with three passes of the kernel more than these, they are kept with every
/// greater number of passes.
pub fn kept_in_more_passes()
    ensures { (promised : Insn → Insn → Bool) (straights : Straights) (schedule : Schedule) (most : ℕ)
        → KeptInMorePasses promised straights schedule most }
{}

/// A pipelined loop is serial for every number of trips: where a prolog, a kernel and an epilog hold its
/// work and count its passes, and distances are kept in one pass to three more than there are iterations
/// in prolog and epilog, it is as `pipelined_is_serial` says from every sound machine that comes to the label with
/// more trips than those iterations. The instructions above the label may set the counter as they like: what they leave there
/// has landed before a step or branch finds it. Accesses of which it is promised that in the serial run they never meet but
/// in one iteration need no order between iterations, where that promise holds.
pub fn pipelined_for_all_trips()
    ensures { (promised : Insn → Insn → Bool) (region : Region) (pipelined : Pipelined) (most : ℕ)
        → PipelinedForAllTrips promised region pipelined most }
{}

/// And so it is of packets that begin iterations past the last, as a collapsed epilog does, of which they issue no stores: from every sound machine
/// that comes to the label with more trips than prolog and epilog hold of each instruction at least, they leave what the serial loop
/// leaves, but for the registers that the instances past the end write and for faulted lines of these.
pub fn collapsed_for_all_trips()
    ensures { (promised : Insn → Insn → Bool) (region : Region) (past : List SerialInsn) (pipelined : Pipelined) (most : ℕ)
        → CollapsedForAllTrips promised region past pipelined most }
{}

/// So it is of a loop that sums words, in packets of one cycle a word: when its kernel is begun five
/// branches and five loads are in flight.
pub fn sums_are_pipelined()
    ensures counts { IsCountedLoop sum }
    ensures rows { IsPipelined pipelined_sum }
    ensures holds { IsPipelining (λ one other. false) sum pipelined_sum 5 }
{}
