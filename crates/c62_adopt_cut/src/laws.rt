//! Laws of what is read of texts of packets.

ghost use Rattle.c62_op.specs.declared.set.InstructionSet.{InstructionSet};
ghost use Rattle.std.specs.Prelude.{ℕ, Bool, List};
ghost use Rattle.c62_adopt_cut.specs.Text.{Cut};
ghost use Rattle.c62_adopt_cut.specs.Blocks.{Draft};
ghost use Rattle.c62_adopt_cut.specs.Home.{BlocksAreOfLines};
ghost use Rattle.c62_adopt_cut.specs.Laws.{BlocksAreFine, BlocksAreNamed, BlocksAreInOrder, BlocksAreOver, LacksNoneWhereOver, IsJustDrained};

/// Of every text at most 64 blocks are read, each of at most 256 instructions, which have their units written, and none in
/// flight behind the 2,048th cycle of its block.
pub fn blocks_are_fine()
    ensures { (isa : InstructionSet) (text : List ℕ) → BlocksAreFine isa text }
{}

/// The labels of the blocks that are read are labels, and no two are the same; each block without one has an instruction.
pub fn blocks_are_named()
    ensures { (isa : InstructionSet) (text : List ℕ) → BlocksAreNamed isa text }
{}

/// The instructions of each block stand in the order of their lines and of their cycles.
pub fn blocks_are_in_order()
    ensures { (isa : InstructionSet) (text : List ℕ) → BlocksAreInOrder isa text }
{}

/// Where no instruction has a fault because of the lines below it, nothing is in flight where a block is over, no block has more
/// than one branch, and each branch to a label goes to one of the blocks: of the text as it stands, and of that with the cycles
/// added that lack.
pub fn blocks_are_over()
    ensures { (drain : Bool) (cut : Cut) → BlocksAreOver drain cut }
{}

/// A text as it stands has nothing in flight exactly where it has nothing in flight once it is drained, and lacks no cycles.
pub fn drained_texts_lack_none()
    ensures { (cut : Cut) → LacksNoneWhereOver cut }
{}

/// With the cycles added that a block without a branch lacks, all its instructions have landed before it is over, and with fewer
/// they haven't.
pub fn lacking_cycles_are_just_enough()
    ensures { (next : ℕ) (draft : Draft) → IsJustDrained next draft }
{}

/// Each instruction of a line that is read stands in one block, in the order of lines: in that which begins at the last cut not
/// behind its cycle, under the label that stands last at or above it, where that stands at this cut. Each label is a block's,
/// and blocks begin where the text is cut, or at its beginning.
pub fn blocks_are_of_lines()
    ensures { (isa : InstructionSet) (text : List ℕ) → BlocksAreOfLines isa text }
{}
