//! How many registers of each side are live at most, and which are left alone.

ghost use Rattle.std.specs.Prelude.{◌≡◌, ◌<◌, map, length, false, not, IfOk};
ghost use Rattle.std.specs.List.{filter};
ghost use Rattle.c62_op.specs.declared.register.Side.{Side as File};
ghost use Rattle.c62_live.specs.Live.{AreRegisters, dead, is_used};
ghost use Rattle.c62_live.specs.Lives.{better, live_count, AreLives, AreLivesOf, IsMost};

use crate::live::{Tracked, all_in, count_live};
use crate::uses::is_used;
use c62_insn::{Reg, Side};
use c62_packet::Placed;
use std::alloc::{AllocError, Global};

/// How many registers a side has.
const REGISTERS: u8 = 16;

/// The registers of a side in a schedule.
#[derive(Debug, Drop)]
pub struct SideLives {
    /// How many are live in one cycle at most.
    pub most: usize,
    /// The first cycle in which as many are.
    pub cycle: u16,
    /// Those that no instruction reads or writes.
    pub unused: Vec<Reg>,
}

/// The registers of both sides in a schedule.
#[derive(Debug, Drop)]
pub struct Lives {
    pub a: SideLives,
    pub b: SideLives,
}

/// A number of live registers, and a cycle with as many.
#[derive(Clone, Copy)]
struct Most {
    count: usize,
    cycle: u16,
}

/// The greater number, and of equal ones that of the earlier cycle.
fn better(most: Most, count: usize, cycle: u16) -> Most
    ensures { result ≡ better most count cycle }
{
    if most.count <= count {
        Most { count, cycle }
    } else {
        most
    }
}

/// The registers of a side.
fn registers_of(alloc: Global, side: Side) -> Result<Vec<Reg>, AllocError>
    ensures { IfOk result (λ regs. AreRegisters side regs.items) }
{
    let mut regs = Vec::with_capacity(alloc, usize::from(REGISTERS))?;
    for number in 0..REGISTERS {
        regs.push(Reg { side, number })?;
    }
    Ok(regs)
}

/// The registers behind a block, where none is known to be live.
pub(crate) fn behind(alloc: Global, regs: &[Reg]) -> Result<Vec<Tracked>, AllocError>
    ensures { IfOk result (λ tracked. tracked.items ≡ map dead regs.now) }
{
    let mut tracked = Vec::with_capacity(alloc, regs.len())?;
    for reg in regs {
        tracked.push(Tracked {
            reg: *reg,
            live: false,
        })?;
    }
    Ok(tracked)
}

/// How many of these registers are live at most, and in which cycle first.
fn most_of(alloc: Global, placed: &[Placed], regs: &[Reg], cycles: u16) -> Result<Most, AllocError>
    ensures { IfOk result (λ most. IsMost (live_count placed.now regs.now cycles) cycles most.count most.cycle) }
{
    let mut tracked = behind(alloc, regs)?;
    let mut most = Most { count: 0, cycle: 0 };
    for left in 0..cycles {
        let cycle = cycles - 1 - left;
        tracked = all_in(alloc, placed, cycle, &tracked)?;
        most = better(most, count_live(&tracked), cycle);
    }
    Ok(most)
}

/// Those of these registers that no instruction reads or writes.
fn unused(alloc: Global, placed: &[Placed], regs: &[Reg]) -> Result<Vec<Reg>, AllocError>
    ensures { IfOk result (λ unused. unused.items ≡ filter (λ reg. not (is_used placed.now reg)) regs.now) }
{
    let mut unused = Vec::new(alloc);
    for reg in regs {
        if !is_used(placed, *reg) {
            unused.push(*reg)?;
        }
    }
    Ok(unused)
}

/// The registers of a side.
fn side_lives(
    alloc: Global,
    placed: &[Placed],
    side: Side,
    cycles: u16,
) -> Result<SideLives, AllocError>
    ensures { IfOk result (AreLivesOf placed.now side cycles) }
{
    let regs = registers_of(alloc, side)?;
    let most = most_of(alloc, placed, &regs, cycles)?;
    Ok(SideLives {
        most: most.count,
        cycle: most.cycle,
        unused: unused(alloc, placed, &regs)?,
    })
}

/// How many registers of each side are live at most in a schedule of so many cycles, and which its block leaves alone.
///
/// # Errors
///
/// Where memory ran out.
pub fn lives_of(alloc: Global, placed: &[Placed], cycles: u16) -> Result<Lives, AllocError>
    ensures { IfOk result (AreLives placed.now cycles) }
{
    Ok(Lives {
        a: side_lives(alloc, placed, Side::A, cycles)?,
        b: side_lives(alloc, placed, Side::B, cycles)?,
    })
}
