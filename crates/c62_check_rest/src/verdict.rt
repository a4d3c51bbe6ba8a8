//! What is told of a block that belongs to no loop (docs/CHECK.md, "Other blocks").

ghost use Rattle.std.specs.Prelude.{◌≡◌, ◌+◌, ◌<◌, ◌^◌, Some, IfOk, IsTrue};
ghost use Rattle.std.specs.Bool.{OnTrue};
ghost use Rattle.std.specs.List.{list_all};
ghost use Rattle.c62_insn.specs.Insn.{operands_of};
ghost use Rattle.c62_rows.specs.Rows.{text_of};
ghost use Rattle.c62_packet.specs.Packed.{IsPacketBlock};
ghost use Rattle.c62_check.specs.Verdict.{IsVerdict};
ghost use Rattle.c62_check_rest.specs.Starts.{start_at, goes_to};
ghost use Rattle.c62_check_rest.specs.Rows.{IsLaidOut, issued_by};
ghost use Rattle.c62_check_rest.specs.Told.{Fits, IsToldOf, IsRest, is_same};

use crate::laid::{Laid, aim_of, are_over_by, have_slots, idle_of, lay_out};
use crate::made::made_of;
use crate::named::{label_of, named};
use crate::starts::{is_row, start_at};
use c62_check::{Verdict, check_block};
use c62_depend::Plan;
use c62_insn::Operands;
use c62_packet::{BlockFault, PacketBlock};
use c62_read::{Block, SerialInsn};
use c62_rows::Rows;
use std::alloc::{AllocError, Global};

/// What is told of a block and the rows that are its own.
#[derive(Drop)]
pub enum RestVerdict {
    /// What the rows issue is a block of packets, of which this is told.
    Checked(Verdict),
    /// What they issue is no block of packets.
    Faulty(BlockFault),
    /// Something that they issue lands when they are over or later, or is a branch that takes effect later.
    Undrained,
    /// Nothing is known of it.
    Unchecked,
}

impl RestVerdict {
    /// Whether the rows do what the block does.
    pub fn is_same(&self) -> bool
        ensures { result ≡ is_same self.now }
    {
        match self {
            RestVerdict::Checked(verdict) => verdict.is_same(),
            _ => false,
        }
    }
}

/// The rows of a block: so many from the first on, which are over in a cycle, and the number of the label that its branch names there.
#[derive(Clone, Copy)]
struct Own {
    first: usize,
    count: usize,
    end: u16,
    label: u8,
}

/// Whether an instruction is no branch to a block, or one to a block that is entered at this row.
fn goes_to(starts: &[Option<usize>], row: usize, entry: &SerialInsn) -> bool
    ensures { result ≡ goes_to starts.now row (operands_of entry.now.insn) }
{
    match entry.insn.operands() {
        Operands::Block(number) => is_row(start_at(starts, usize::from(number)), row),
        _ => true,
    }
}

/// Whether all of these that branch to a block go to one that is entered at this row.
fn all_go_to(starts: &[Option<usize>], row: usize, entries: &[SerialInsn]) -> bool
    ensures { result ≡ list_all (λ entry. goes_to starts.now row (operands_of entry.insn)) entries.now }
{
    entries.iter().all(|entry| goes_to(starts, row, entry))
}

/// Whether the rows last as long as their packets, have no row behind the delay slots of a branch, and go where the block goes.
fn fits(
    block: &Block,
    starts: &[Option<usize>],
    rows: &Rows,
    own: Own,
    packets: &PacketBlock,
) -> bool
    requires few { own.first + own.count < 2 ^ 64 }
    requires within { own.first + own.count ≤ length (text_of rows.now).rows }
    requires end { own.end ≡ end_of (text_of rows.now) own.first own.count }
    ensures { OnTrue result (Fits starts.now (text_of rows.now) own.first own.count own.label block.now packets.now) }
{
    let last = (own.first + own.count).saturating_sub(1);
    packets.length() <= own.end
        && have_slots(own.end, idle_of(rows, last), packets.placed())
        && all_go_to(starts, aim_of(rows, own.label), block.insns())
}

ghost use Rattle.std.specs.Prelude.{◌≤◌, length};
ghost use Rattle.c62_check_rest.specs.Rows.{end_of};

fn plan_of(alloc: Global, block: Block) -> Result<Plan, AllocError>
    ensures { IfOk result (λ plan. plan ≡ block) }
{
    match Plan::new(alloc, block) {
        Ok(plan) => Ok(plan),
        Err((_, error)) => Err(error),
    }
}

/// What is to be told of a block and packets.
fn verdict_of(alloc: Global, block: Block, packets: &PacketBlock) -> Result<Verdict, AllocError>
    ensures { IfOk result (IsVerdict block packets.now) }
{
    check_block(alloc, &plan_of(alloc, block)?, packets)
}

/// What is told of a block and the packets of its rows.
fn checked(
    alloc: Global,
    block: &Block,
    starts: &[Option<usize>],
    rows: &Rows,
    own: Own,
    packets: &PacketBlock,
) -> Result<RestVerdict, AllocError>
    requires few { own.first + own.count < 2 ^ 64 }
    requires within { own.first + own.count ≤ length (text_of rows.now).rows }
    requires end { own.end ≡ end_of (text_of rows.now) own.first own.count }
    requires sound { IsPacketBlock packets.now }
    requires holds { packets.now.placed ≡ issued_by (text_of rows.now) own.first own.count }
    ensures { IfOk result (IsToldOf starts.now (text_of rows.now) own.first own.count block.now) }
{
    let fits = fits(block, starts, rows, own, packets);
    let verdict = verdict_of(alloc, named(alloc, block, own.label)?, packets)?;
    if verdict.is_same() && !fits {
        Ok(RestVerdict::Unchecked)
    } else {
        Ok(RestVerdict::Checked(verdict))
    }
}

/// What is told of a block and so many rows from one on.
fn told_of(
    alloc: Global,
    block: &Block,
    starts: &[Option<usize>],
    rows: &Rows,
    first: usize,
    count: usize,
) -> Result<RestVerdict, AllocError>
    requires { first + count < 2 ^ 64 }
    ensures { IfOk result (IsToldOf starts.now (text_of rows.now) first count block.now) }
{
    let Some(Laid { issued, end }) = lay_out(alloc, rows, first, count)? else {
        return Ok(RestVerdict::Unchecked);
    };
    if !are_over_by(end, &issued) {
        return Ok(RestVerdict::Undrained);
    }
    let label = label_of(block, starts, rows, &issued);
    let own = Own {
        first,
        count,
        end,
        label,
    };
    match made_of(issued) {
        Some(Ok(packets)) => checked(alloc, block, starts, rows, own, &packets),
        Some(Err(fault)) => Ok(RestVerdict::Faulty(fault)),
        None => Ok(RestVerdict::Unchecked),
    }
}

/// What is told of the block of this number, which belongs to no loop, and the rows from that at which it is entered up to that at which the
/// next block is. Without these nothing is told of it. It is `same` only where the rows do what the block does, from every sound machine.
///
/// # Errors
///
/// `AllocError` where memory ran out.
pub fn check_rest(
    alloc: Global,
    block: &Block,
    number: u8,
    starts: &[Option<usize>],
    rows: &Rows,
) -> Result<RestVerdict, AllocError>
    ensures { IfOk result (IsRest starts.now (text_of rows.now) number block.now) }
{
    let number = usize::from(number);
    let (Some(first), Some(next)) = (start_at(starts, number), start_at(starts, number + 1)) else {
        return Ok(RestVerdict::Unchecked);
    };
    match next.checked_sub(first) {
        Some(count) => told_of(alloc, block, starts, rows, first, count),
        None => Ok(RestVerdict::Unchecked),
    }
}
