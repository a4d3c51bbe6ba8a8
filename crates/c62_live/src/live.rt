//! Registers from cycle to cycle, the last one first.

ghost use Rattle.std.specs.Prelude.{◌≡◌, map, length, IfOk};
ghost use Rattle.std.specs.List.{count_by};
ghost use Rattle.c62_live.specs.Live.{lives_on, earlier};

use crate::uses::{is_ended, is_read};
use c62_insn::Reg;
use c62_packet::Placed;
use std::alloc::{AllocError, Global};

/// A register, and whether it is live in a cycle.
#[derive(Clone, Copy)]
pub(crate) struct Tracked {
    pub reg: Reg,
    pub live: bool,
}

/// Whether what is live in the cycle behind, or isn't, is live in this cycle.
fn lives_on(placed: &[Placed], reg: Reg, cycle: u16, live: bool) -> bool
    ensures { result ≡ lives_on placed.now reg cycle live }
{
    is_read(placed, reg, cycle) || (live && !is_ended(placed, reg, cycle))
}

/// The register in the cycle before.
fn tracked_in(placed: &[Placed], cycle: u16, tracked: Tracked) -> Tracked
    ensures { result ≡ earlier placed.now cycle tracked }
{
    Tracked {
        reg: tracked.reg,
        live: lives_on(placed, tracked.reg, cycle, tracked.live),
    }
}

/// The registers in this cycle, by what they are in the cycle behind it.
pub(crate) fn all_in(
    alloc: Global,
    placed: &[Placed],
    cycle: u16,
    tracked: &[Tracked],
) -> Result<Vec<Tracked>, AllocError>
    ensures { IfOk result (λ before. before.items ≡ map (earlier placed.now cycle) tracked.now) }
{
    let mut before = Vec::with_capacity(alloc, tracked.len())?;
    for each in tracked {
        before.push(tracked_in(placed, cycle, *each))?;
    }
    Ok(before)
}

/// How many are live.
pub(crate) fn count_live(tracked: &[Tracked]) -> usize
    ensures { result ≡ count_by (λ each. each.live) tracked.now }
{
    tracked.iter().filter(|each| each.live).count()
}
