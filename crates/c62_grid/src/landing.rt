//! What lands behind the cycle of its issue.

ghost use Rattle.std.specs.Prelude.{◌≡◌, ◌++◌, ◌≤◌, IfOk, OnOk, codes};
ghost use Rattle.std.specs.List.{flat_map};
ghost use Rattle.c62_listing.specs.Written.{AddsText};
ghost use Rattle.c62_grid.specs.Landing.{delayed, landed_at, landings_by, landings_of, landed_between, landed_name, landing_words, landing_list, landed_in_row};

use crate::words::{push_number, push_register};
use c62_insn::Reg;
use c62_packet::Placed;
use std::alloc::{AllocError, Global};

/// What lands.
#[derive(Clone, Copy, PartialEq, Eq, Debug)]
pub enum Landed {
    /// A write of this register.
    Register(Reg),
    /// The branch.
    Branch,
}

/// What lands, and in which cycle: the next one has it.
#[derive(Clone, Copy, PartialEq, Eq, Debug)]
pub struct Landing {
    pub what: Landed,
    pub cycle: u32,
}

/// Adds the landing of a write that is issued in this cycle, where it has a delay.
fn push_delayed(
    landings: &mut Vec<Landing>,
    cycle: u16,
    reg: Reg,
    delay: u8,
) -> Result<(), AllocError>
    ensures { OnOk result (landings.new.items ≡ landings.old.items ++ delayed cycle (reg, delay)) }
{
    if delay == 0 {
        return Ok(());
    }
    landings.push(Landing {
        what: Landed::Register(reg),
        cycle: u32::from(cycle) + u32::from(delay),
    })?;
    Ok(())
}

/// Adds the landings of these writes that are issued in this cycle.
fn push_writes(
    landings: &mut Vec<Landing>,
    cycle: u16,
    writes: &[(Reg, u8)],
) -> Result<(), AllocError>
    ensures { OnOk result (landings.new.items ≡ landings.old.items ++ flat_map (delayed cycle) writes.now) }
{
    for (reg, delay) in writes {
        push_delayed(landings, cycle, *reg, *delay)?;
    }
    Ok(())
}

/// Adds the landings of an instruction.
#[tactic(auto, unfolding(crate::specs::Landing::landings_by))]
fn push_landings(landings: &mut Vec<Landing>, placed: &Placed) -> Result<(), AllocError>
    ensures { OnOk result (landings.new.items ≡ landings.old.items ++ landings_by placed.now) }
{
    push_writes(landings, placed.cycle, &placed.insn.writes())?;
    if placed.insn.op().is_branch() {
        landings.push(Landing {
            what: Landed::Branch,
            cycle: u32::from(placed.cycle) + u32::from(placed.insn.delay()),
        })?;
    }
    Ok(())
}

/// What lands of these instructions with a delay, by issue.
///
/// # Errors
///
/// Where memory ran out.
pub fn landings_of(alloc: Global, placed: &[Placed]) -> Result<Vec<Landing>, AllocError>
    ensures { IfOk result (λ landings. landings.items ≡ landings_of placed.now) }
{
    let mut landings = Vec::new(alloc);
    for each in placed {
        push_landings(&mut landings, each)?;
    }
    Ok(landings)
}

/// Adds a landing, where it is in this cycle.
fn push_landed_at(found: &mut Vec<Landing>, landing: Landing, cycle: u32) -> Result<(), AllocError>
    ensures { OnOk result (found.new.items ≡ found.old.items ++ landed_at cycle landing) }
{
    if landing.cycle != cycle {
        return Ok(());
    }
    found.push(landing)?;
    Ok(())
}

/// Adds those that land in this cycle.
fn push_landed(found: &mut Vec<Landing>, landings: &[Landing], cycle: u32) -> Result<(), AllocError>
    ensures { OnOk result (found.new.items ≡ found.old.items ++ flat_map (landed_at cycle) landings.now) }
{
    for landing in landings {
        push_landed_at(found, *landing, cycle)?;
    }
    Ok(())
}

/// Those that land from the first cycle on and before the next, by cycle.
pub(crate) fn landed_between(
    alloc: Global,
    landings: &[Landing],
    first: u32,
    next: u32,
) -> Result<Vec<Landing>, AllocError>
    requires { first ≤ next }
    ensures { IfOk result (λ found. found.items ≡ landed_between landings.now first next) }
{
    let mut found = Vec::new(alloc);
    for cycle in first..next {
        push_landed(&mut found, landings, cycle)?;
    }
    Ok(found)
}

/// The name of what lands.
///
/// # Errors
///
/// Where memory ran out.
pub fn push_landed_name(out: &mut String, what: Landed) -> Result<(), AllocError>
    ensures { OnOk result (AddsText out.old (landed_name what) out.new) }
{
    match what {
        Landed::Register(reg) => push_register(out, reg),
        Landed::Branch => out.push_str("branch"),
    }
}

/// What lands, and in which cycle.
#[tactic(auto, unfolding(crate::specs::Landing::landing_words))]
fn push_landing(out: &mut String, landing: &Landing) -> Result<(), AllocError>
    ensures { OnOk result (AddsText out.old (landing_words landing.now) out.new) }
{
    push_landed_name(out, landing.what)?;
    out.push_str(" in ")?;
    push_number(out, u64::from(landing.cycle))
}

/// What lands in cycles in which nothing is issued.
pub(crate) fn push_landing_list(out: &mut String, found: &[Landing]) -> Result<(), AllocError>
    ensures { OnOk result (AddsText out.old (landing_list found.now) out.new) }
{
    match found {
        [] => Ok(()),
        [first, others @ ..] => {
            out.push_str(", landing: ")?;
            push_landing(out, first)?;
            push_others(out, others)
        }
    }
}

fn push_others(out: &mut String, others: &[Landing]) -> Result<(), AllocError>
    ensures { OnOk result (AddsText out.old (flat_map (λ other. codes ", " ++ landing_words other) others.now) out.new) }
{
    for other in others {
        out.push_str(", ")?;
        push_landing(out, other)?;
    }
    Ok(())
}

/// What lands in the cycle of a row, where it lands there.
fn push_landed_in(out: &mut String, landing: &Landing, cycle: u32) -> Result<(), AllocError>
    ensures { OnOk result (AddsText out.old (landed_in_row cycle landing.now) out.new) }
{
    if landing.cycle != cycle {
        return Ok(());
    }
    out.push_str(" ")?;
    push_landed_name(out, landing.what)
}

/// All that lands in the cycle of a row.
///
/// # Errors
///
/// Where memory ran out.
pub fn push_all_landed(out: &mut String, landings: &[Landing], cycle: u32) -> Result<(), AllocError>
    ensures { OnOk result (AddsText out.old (flat_map (landed_in_row cycle) landings.now) out.new) }
{
    for landing in landings {
        push_landed_in(out, landing, cycle)?;
    }
    Ok(())
}
