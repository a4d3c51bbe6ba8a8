//! Laws of pictures. The functions do nothing: what each ensures is a law.

ghost use Rattle.std.specs.Prelude.{List, ℕ};
ghost use Rattle.c62_packet.specs.declared.placed.Placed.{Placed};
ghost use Rattle.c62_packet.specs.Packed.{Packed};
ghost use Rattle.c62_read.specs.Block.{Serial};
ghost use Rattle.c62_show.specs.declared.shown.Shown.{Shown};
ghost use Rattle.c62_show.specs.Laws.{HeadIsTrue, HeadIsTrueOfSchedules, BoundIsRaised, IsIdleUntil, AreAllShown, AreAllPrinted, IsHeaded};
ghost use Rattle.c62_show.specs.declared.limits.Limits.{Limits};
ghost use Rattle.c62_grid.specs.declared.widths.Widths.{Widths};

/// Where the head of a block says that no schedule is shorter, none is in which each instruction has a cycle and a unit that
/// takes it, whichever is written, so that all bounds are kept and no two go over one cross path in a cycle; and none is shorter
/// than the bound that it tells otherwise. So
/// none of the packets that `check` calls the same as the block is, and no lawful set that places all instructions.
pub fn heads_are_true()
    ensures seated { (block : Serial) (shown : Shown) → HeadIsTrue block shown }
    ensures lawful { (block : Serial) (shown : Shown) → HeadIsTrueOfSchedules block shown }
{}

/// The bound that is told of a block is its raised bound, or more where a search tells that, and at least its least length.
pub fn bounds_are_raised()
    ensures { (block : Serial) (limits : Limits) → BoundIsRaised block limits }
{}

/// In the cycles that stand in one row nothing is issued.
pub fn pauses_are_idle()
    ensures { (placed : List Placed) (cycles cycle : ℕ) → IsIdleUntil placed cycles cycle }
{}

/// Each instruction of a packet block stands in its cycle on its unit: it is what is found there, the row of the cycle is printed,
/// and in it the instruction's cell.
pub fn instructions_are_shown()
    ensures found { (block : Packed) → AreAllShown block }
    ensures printed { (shown : List Shown) → AreAllPrinted shown }
{}

/// In a picture each block begins with its head, as it stands among heads alone.
pub fn heads_alone_begin_blocks()
    ensures { (widths : Widths) (number : ℕ) (shown : Shown) → IsHeaded widths number shown }
{}
