//! Units for instructions whose cycles are known.

ghost use Rattle.std.specs.Prelude.{◌<◌, length};

use bitflags::Flags;
use c62_depend::Plan;
use c62_insn::{Letter, Side, Unit, UnitSet};
use c62_sheet::Spot;
use std::alloc::{AllocError, Global};

const SOME_UNIT: Unit = Unit {
    letter: Letter::L,
    side: Side::A,
};

const SOME_SPOT: Spot = Spot {
    cycle: 0,
    unit: SOME_UNIT,
};

/// How many units a set has.
fn size(units: UnitSet) -> u32 {
    let mut size = 0u32;
    for unit in Unit::ALL {
        if units.has(unit) {
            size = size.saturating_add(1);
        }
    }
    size
}

/// The first of these units that isn't taken.
fn first_free(units: UnitSet, taken: UnitSet) -> Unit {
    for unit in Unit::ALL {
        if units.has(unit) && !taken.has(unit) {
            return unit;
        }
    }
    SOME_UNIT
}

/// A spot in its cycle for each instruction, by number. Those that may stand on the fewest units take theirs first.
///
/// # Errors
///
/// Where memory ran out.
pub fn spots_in(alloc: Global, plan: &Plan, cycles: &[u16]) -> Result<Vec<Spot>, AllocError> {
    let count = usize::from(plan.len());
    let mut spots = vec![in alloc; SOME_SPOT; count]?;
    let mut taken = vec![in alloc; UnitSet::empty(); 5 * count]?;
    for few in 1..=4 {
        for i in 0..plan.len() {
            let units = plan.units(i);
            if size(units) == few {
                place(&mut spots, &mut taken, cycles, i, units);
            }
        }
    }
    Ok(spots)
}

/// Gives an instruction one of these units in its cycle.
fn place(spots: &mut [Spot], taken: &mut [UnitSet], cycles: &[u16], i: u16, units: UnitSet) {
    let Some(cycle) = cycles.get(usize::from(i)) else {
        return;
    };
    let Some(taken) = taken.get_mut(usize::from(*cycle)) else {
        return;
    };
    let unit = first_free(units, *taken);
    *taken = taken.with(unit);
    if let Some(spot) = spots.get_mut(usize::from(i)) {
        *spot = Spot {
            cycle: *cycle,
            unit,
        };
    }
}
