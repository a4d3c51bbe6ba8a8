//! Laws of packet meaning. The functions do nothing: what each ensures is a law, proved of the
//! definitions that other contracts cite.

ghost use Rattle.std.specs.Prelude.{ℕ, List};
ghost use Rattle.c62_insn.specs.Insn.{IsSameInsn};
ghost use Rattle.c62_insn.specs.declared.insn.Insn.{Insn};
ghost use Rattle.c62_read.specs.declared.block.SerialInsn.{SerialInsn};
ghost use Rattle.c62_serial.specs.State.{Machine, IsSound};
ghost use Rattle.c62_packet.specs.declared.placed.Placed.{Placed};
ghost use Rattle.c62_meaning.specs.Alike.{MeanAlike};
ghost use Rattle.c62_meaning.specs.Landed.{RunsLandOneByOne};
ghost use Rattle.c62_meaning.specs.Laws.{HasOneMeaning, ActsAlike, PacketsAreSerial};
ghost use Rattle.c62_meaning.specs.Instances.{InstancesAreSerial, InstancesAreSerialFrom};
ghost use Rattle.c62_meaning.specs.Cut.{RunsLater, LandedCuts, DrainedCuts, Settles, Part, PartsRunInTurn};

/// Every block of packets has just one meaning, whatever its instructions do and wherever they are
/// placed.
pub fn has_one_meaning()
    ensures { (block : List Placed) (cycles : ℕ) (opening : Machine) → IsSound opening
        → HasOneMeaning block cycles opening }
{}

/// Packets are serial: where they hold the instructions of a block so that every dependence keeps its
/// distance, they leave what the block leaves one instruction after the other, in registers, memory
/// and faulted lines, and go on where it does, from every sound machine.
pub fn packets_are_serial()
    ensures { (insns : List SerialInsn) (block : List Placed) → PacketsAreSerial insns block }
{}

/// Instances of a path are serial, over branches and loops: where the instructions that a run takes are
/// issued at cycles that keep the bounds of registers and memory between any two, each does what it does
/// after those before it in the path, no two write one register in one cycle, and once all has landed
/// they leave the registers, memory and faulted lines of the serial run, from every sound machine.
pub fn instances_are_serial()
    ensures { (path : List SerialInsn) (issued : List Placed) → InstancesAreSerial path issued }
{}

/// Two accesses to memory need that order only where they meet in the serial run: where one of them
/// doesn't run there, or they never have a byte in common, they may stand anywhere.
pub fn instances_that_meet_are_serial()
    ensures { (opening : Machine) (path : List SerialInsn) (issued : List Placed)
        → InstancesAreSerialFrom opening path issued }
{}

/// What an instruction does is the same on whichever unit it is written.
pub fn acts_alike_on_all_units()
    ensures { (one other : Insn) → IsSameInsn one other → ActsAlike one other }
{}

/// In the run of packets that keep P5 no two executed writes of one register land in one cycle.
pub fn lands_one_by_one()
    ensures { (block : List Placed) (opening : Machine) → RunsLandOneByOne block opening }
{}

/// Lines are names of faults and nothing else: the same instructions in the same places do the same
/// and leave the same, but for the lines that faulted.
pub fn lines_name_faults_alone()
    ensures { (block others : List Placed) (cycles : ℕ) → MeanAlike block others cycles }
{}

/// Instructions that are all issued so many cycles later do the same, and leave the same, so many cycles
/// later.
pub fn runs_later()
    ensures { (t : ℕ) (issued : List Placed) → RunsLater t issued }
{}

/// Where all that was issued early has landed by a cycle, and the rest is issued from that cycle on, a run
/// is one of the early and, from the machine that it leaves, one of the rest, with cycles counted from
/// there; and two such runs are one.
pub fn landed_cuts()
    ensures { (t : ℕ) (early late : List Placed) → LandedCuts t early late }
{}

/// So it is where nothing that is issued early can land from that cycle on, whatever it does.
pub fn drained_cuts()
    ensures { (t : ℕ) (early late : List Placed) → DrainedCuts t early late }
{}

/// Once all that was issued has landed nothing changes any more.
pub fn runs_settle()
    ensures { (t : ℕ) (issued : List Placed) → Settles t issued }
{}

/// Parts one behind the other, each of which has landed when the next begins, run as one: each from the
/// machine that the one before it leaves.
pub fn parts_run_in_turn()
    ensures { (parts : List Part) → PartsRunInTurn parts }
{}
