//! Laws of the program. The functions do nothing: what each ensures is a law.

ghost use Rattle.c62_op.specs.declared.set.InstructionSet.{InstructionSet};
ghost use Rattle.std.specs.Prelude.{ℕ, Bool, List};
ghost use Rattle.c62_read.specs.Block.{Serial};
ghost use Rattle.c62_packet.specs.Packed.{Packed};
ghost use Rattle.c62_command.specs.declared.command.Packing.{Packing};
ghost use Rattle.c62_answer.specs.ReadBack.{IsReadBack};
ghost use Rattle.c62_answer.specs.AdoptedBack.{IsAdoptedBack};
ghost use Rattle.c62_answer.specs.AdoptedRun.{RunsAsItsListing};
ghost use Rattle.c62_answer.specs.OneText.{HasOneBoard, HaveOnePacking, HasOneText};
ghost use Rattle.c62_answer.specs.PackedSame.{PacksSchedules};
ghost use Rattle.c62_answer.specs.Parting.{IsPartedOnce};
ghost use Rattle.c62_answer.specs.Memory.{AnswersEndWithMemory};

/// What `pack` writes, by turns or by two workers, is a listing that is read back: as the packets that
/// were packed, but for the lines of their instructions. So each report that `sim` gives of it is one of
/// the program that the text says: the same chain, registers and memory, and faults of the same places.
pub fn what_is_packed_is_read_back()
    ensures { (isa : InstructionSet) (packing : Packing) (text answer : List ℕ) → IsReadBack isa packing text answer }
{}

/// The packets that `pack`, `show` and `run` make of a block, with whichever words, are a schedule of it as `check` asks: the
/// same instructions, with every distance that a dependence asks kept.
pub fn what_is_packed_is_a_schedule()
    ensures { (packing : Packing) (program : List Serial) (packets : List Packed) → PacksSchedules packing program packets }
{}

/// What `pack` writes, by turns or by two workers, is adopted as itself, drained or not: to the byte, and without a cycle
/// more.
pub fn what_is_packed_is_adopted_as_itself()
    ensures { (isa : InstructionSet) (packing : Packing) (drain : Bool) (text answer : List ℕ) → IsAdoptedBack isa packing drain text answer }
{}

/// What `sim --packets` reports of a text is what `sim` reports of the listing that `adopt` writes of it, but for the lines at
/// `fault`: the same blocks are run, in as many cycles, and leave the same, and the faulted lines are those of the same places.
pub fn packets_run_as_their_listing()
    ensures { (isa : InstructionSet) (text : List ℕ) → RunsAsItsListing isa text }
{}

/// `pack --turns` can write one listing only of a text, with one budget of ejections: the board that
/// turns and finishing lead to is one, and so are the packets and what is written, unless the shortest schedules are asked for.
pub fn turns_pack_once()
    ensures board { (packing : Packing) (block : Serial) → HasOneBoard packing block }
    ensures packets { (packing : Packing) (program : List Serial) → HaveOnePacking packing program }
    ensures text { (isa : InstructionSet) (packing : Packing) (text : List ℕ) → HasOneText isa packing text }
{}

/// What is to be checked is parted in one way: it has one first line `---`.
pub fn an_input_is_parted_once()
    ensures { (input : List ℕ) → IsPartedOnce input }
{}

/// The answer of a run ends with the bytes of memory that its settings write to files, in their order.
pub fn answers_end_with_memory()
    ensures { (isa : InstructionSet) → AnswersEndWithMemory isa }
{}
