//! What takes some instructions in a cycle, and which wait for it.

use c62_bound::{KINDS, Kind, waits_for};
use c62_depend::Plan;
use c62_insn::Side;
use std::alloc::{AllocError, Global};

/// A room, with the numbers of the instructions that wait for it.
#[derive(Drop)]
pub(crate) struct Room {
    pub(crate) kind: Kind,
    pub(crate) side: Side,
    pub(crate) numbers: Vec<u16>,
}

/// The numbers of the instructions that wait for a room, rising.
fn numbers(alloc: Global, plan: &Plan, kind: Kind, side: Side) -> Result<Vec<u16>, AllocError> {
    let mut numbers = Vec::new(alloc);
    for i in 0..plan.len() {
        if waits_for(plan, kind, side, i) {
            numbers.push(i)?;
        }
    }
    Ok(numbers)
}

/// The rooms for which more instructions wait than find room in one cycle.
pub(crate) fn rooms(alloc: Global, plan: &Plan) -> Result<Vec<Room>, AllocError> {
    let mut rooms = Vec::new(alloc);
    for side in [Side::A, Side::B] {
        for kind in KINDS {
            let numbers = numbers(alloc, plan, kind, side)?;
            if numbers.len() > usize::from(kind.width()) {
                rooms.push(Room {
                    kind,
                    side,
                    numbers,
                })?;
            }
        }
    }
    Ok(rooms)
}
