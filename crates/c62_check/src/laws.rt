//! Laws of what is found. The functions do nothing: what each ensures is a law, proved of the definitions that other
//! contracts cite.

ghost use Rattle.std.specs.Prelude.{ℕ, ℤ, Bool, List};
ghost use Rattle.c62_insn.specs.declared.insn.Insn.{Insn};
ghost use Rattle.c62_read.specs.declared.block.SerialInsn.{SerialInsn};
ghost use Rattle.c62_read.specs.Block.{Serial};
ghost use Rattle.c62_packet.specs.declared.placed.Placed.{Placed};
ghost use Rattle.c62_packet.specs.Packed.{Packed};
ghost use Rattle.c62_check.specs.declared.verdict.Verdict.{Verdict as Answer};
ghost use Rattle.c62_check.specs.Schedule.{SchedulesArePacked, HasOneNumbering};
ghost use Rattle.c62_check.specs.Least.{PacketsAreSeated, NoPacketsAreShorter, NoCheckedAreShorter};
ghost use Rattle.c62_check.specs.Verdict.{IsExact, HasOneVerdict};
ghost use Rattle.c62_check.specs.Checked.{SaysSame, HasOneText};
ghost use Rattle.c62_check.specs.Serial.{CheckedAreSerial};

/// Packets that are checked to be the same as a program run as it does, from every sound machine and under every limit: the
/// same blocks, registers, memory and end, and the lines that faulted are those of the same instructions.
pub fn checked_packets_are_serial()
    ensures { (program : List Serial) (packets : List Packed) (text : List ℕ) → CheckedAreSerial program packets text }
{}

/// All is the same exactly where the blocks and labels are, and of each block some numbering of the packets' instructions
/// keeps all bounds.
pub fn checks_are_exact()
    ensures { (program : List Serial) (packets : List Packed) (text : List ℕ) (same : Bool) → SaysSame program packets text same }
{}

/// The verdict on a block is `Same` exactly where some numbering of the packets' instructions keeps all bounds.
pub fn verdicts_are_exact()
    ensures { (block : Serial) (packed : Packed) (verdict : Answer) → IsExact block packed verdict }
{}

/// What is taken in the order of the listing is what any lawful numbering has there. So there is one lawful numbering at most.
pub fn has_one_numbering()
    ensures { (insns : List SerialInsn) (listed numbered : List Placed) → HasOneNumbering insns listed numbered }
{}

/// A schedule of a block, with the lines of its instructions in place of the listing's, is packets of the block.
pub fn schedules_are_packed()
    ensures { (block : Serial) (packed : Packed) → SchedulesArePacked block packed }
{}

/// In packets that are a schedule of a block each of its instructions has a cycle and a unit that takes it, so that all bounds
/// are kept and no two are on one unit, data path or cross path in a cycle.
pub fn packets_are_seated()
    ensures { (block : Serial) (packed : Packed) → PacketsAreSeated block packed }
{}

/// Packets that are a schedule of a block take no fewer cycles than its critical path, than any of its needs, and than its
/// raised bound, which [`c62_raised::raised_length`] answers: what is told as the bound of a block holds of all packets of which
/// the verdict is `Same`.
pub fn no_packets_are_shorter()
    ensures { (block : Serial) (packed : Packed) → NoPacketsAreShorter block packed }
{}

/// Where all is the same, each block's packets take no fewer cycles than what is told as its bound.
pub fn no_checked_packets_are_shorter()
    ensures { (program : List Serial) (packets : List Packed) (text : List ℕ) → NoCheckedAreShorter program packets text }
{}

/// A block has one verdict, and a check tells one text.
pub fn has_one_verdict()
    ensures block { (block : Serial) (packed : Packed) → HasOneVerdict block packed }
    ensures text { (program : List Serial) (packets : List Packed) → HasOneText program packets }
{}
