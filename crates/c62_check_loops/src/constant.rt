//! The constant to which a text sets the counter of a loop above it (docs/CHECK.md, "The command").

ghost use Rattle.std.specs.Prelude.{◌≡◌, slice_get};
ghost use Rattle.c62_insn.specs.Insn.{op_of, operands_of, cond_of};
ghost use Rattle.c62_rules.specs.Exclusive.{writes_in};
ghost use Rattle.c62_check_loop.specs.Region.{above, straight_of};
ghost use Rattle.c62_check_loops.specs.Constant.{constant_after, constant_at, constant_of, moved_by};

use c62_check_loop::{counter_of, ends_with_branch};
use c62_insn::{Insn, Op, Operands, Reg};
use c62_op::word_of;
use c62_read::{Block, SerialInsn};

/// Whether an instruction writes a register, executed or not.
fn writes(insn: Insn, reg: Reg) -> bool
    ensures { result ≡ writes_in reg (Some insn) }
{
    let writes = insn.writes();
    writes.as_slice().iter().any(|write| write.0 == reg)
}

/// The constant that an instruction moves into its register, whatever registers hold. `None` where it moves none, or one below 0.
fn moved(insn: Insn) -> Option<u32>
    ensures { result ≡ moved_by (op_of insn) (operands_of insn) (cond_of insn) }
{
    match (insn.op(), insn.operands(), insn.cond()) {
        (Op::Mvk, Operands::Constant(k, _), None) if k >= 0 => Some(word_of(k)),
        _ => None,
    }
}

/// What is known of a register behind an instruction, where this is known of it before.
fn constant_after(reg: Reg, held: Option<u32>, entry: &SerialInsn) -> Option<u32>
    ensures { result ≡ constant_after reg held entry.now }
{
    if writes(entry.insn, reg) {
        moved(entry.insn)
    } else {
        held
    }
}

/// The constant that these leave in a register. `None` where the last that writes it doesn't set it to one, or does so under a
/// condition, or to one below 0, and where none writes it.
fn constant_of(reg: Reg, insns: &[SerialInsn]) -> Option<u32>
    ensures { result ≡ constant_of reg insns.now }
{
    insns
        .iter()
        .fold(None, |held, entry| constant_after(reg, held, entry))
}

/// The constant that the block of this number leaves in a register, where it is there and has no branch.
fn constant_in(reg: Reg, blocks: &[Block], number: usize) -> Option<u32>
    ensures { result ≡ constant_of reg (straight_of (slice_get blocks.now number)) }
{
    let insns = blocks.get(number)?.insns();
    if ends_with_branch(insns) {
        None
    } else {
        constant_of(reg, insns)
    }
}

/// The constant that the block above this number leaves in a register, where it leads to that.
fn constant_above(reg: Reg, blocks: &[Block], number: u8) -> Option<u32>
    ensures { result ≡ constant_of reg (above blocks.now number) }
{
    if number == 0 {
        None
    } else {
        constant_in(reg, blocks, usize::from(number) - 1)
    }
}

/// The trips of the loop that the block of this number is, where what leads to it sets its counter to a constant. `None` where it doesn't,
/// or the block is no loop under a counter.
pub fn constant_at(blocks: &[Block], number: u8) -> Option<u32>
    ensures { result ≡ constant_at blocks.now number }
{
    let counter = counter_of(blocks, usize::from(number))?;
    constant_above(counter, blocks, number)
}
