//! Which registers of a side are live in each cycle.

ghost use Rattle.std.specs.Prelude.{◌≡◌, ◌++◌, OnOk, IfOk};
ghost use Rattle.std.specs.List.{flat_map};
ghost use Rattle.c62_live.specs.Rows.{AreLiveRows, registers, live_reg};

use crate::live::{Tracked, all_in};
use crate::lives::behind;
use c62_insn::{Reg, Side};
use c62_packet::Placed;
use std::alloc::{AllocError, Global};

/// How many registers a side has.
const REGISTERS: u8 = 16;

/// The registers of a side that are live in a cycle.
#[derive(Debug, Drop)]
pub struct LiveRow {
    pub regs: Vec<Reg>,
}

/// The registers of a side, by their numbers.
fn registers(alloc: Global, side: Side) -> Result<Vec<Reg>, AllocError>
    ensures { IfOk result (λ regs. regs.items ≡ registers side) }
{
    let mut regs = Vec::with_capacity(alloc, usize::from(REGISTERS))?;
    for number in 0..REGISTERS {
        regs.push(Reg { side, number })?;
    }
    Ok(regs)
}

/// Adds a register, where it is live.
fn push_live(live: &mut Vec<Reg>, tracked: &Tracked) -> Result<(), AllocError>
    ensures { OnOk result (live.new.items ≡ live.old.items ++ live_reg tracked.now) }
{
    if tracked.live {
        live.push(tracked.reg)?;
    }
    Ok(())
}

/// Those of these registers that are live.
fn live_row(alloc: Global, tracked: &[Tracked]) -> Result<LiveRow, AllocError>
    ensures { IfOk result (λ row. row.regs.items ≡ flat_map live_reg tracked.now) }
{
    let mut regs = Vec::new(alloc);
    for each in tracked {
        push_live(&mut regs, each)?;
    }
    Ok(LiveRow { regs })
}

/// Which registers of a side are live in each cycle of a schedule of so many cycles, the last one first.
///
/// # Errors
///
/// Where memory ran out.
pub fn live_rows(
    alloc: Global,
    placed: &[Placed],
    side: Side,
    cycles: u16,
) -> Result<Vec<LiveRow>, AllocError>
    ensures { IfOk result (λ rows. AreLiveRows placed.now side cycles rows.items) }
{
    let regs = registers(alloc, side)?;
    let mut tracked = behind(alloc, &regs)?;
    let mut rows = Vec::with_capacity(alloc, usize::from(cycles))?;
    for left in 0..cycles {
        tracked = all_in(alloc, placed, cycles - 1 - left, &tracked)?;
        rows.push(live_row(alloc, &tracked)?)?;
    }
    Ok(rows)
}
