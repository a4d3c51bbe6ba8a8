//! Rows of instructions with their cycles.

use c62_insn::Unit;
use c62_packet::Placed;
use c62_rows::Row;
use std::alloc::{AllocError, Global};

/// The most cycles that a NOP takes.
const MOST_IDLE: u32 = 9;

/// The instructions that are issued in a cycle, in the order of units.
fn issued_in(alloc: Global, placed: &[Placed], cycle: u16) -> Result<Vec<Placed>, AllocError> {
    let mut issued = Vec::new(alloc);
    for unit in Unit::ALL {
        for each in placed {
            if each.cycle == cycle && each.unit == unit {
                issued.push(Placed { cycle: 0, ..*each })?;
            }
        }
    }
    Ok(issued)
}

/// Rows on their way.
#[derive(Drop)]
struct Laying {
    rows: Vec<Row>,
    /// How many cycles without an instruction stand behind them.
    idle: u32,
}

impl Laying {
    /// Adds a row of the cycles without an instruction.
    fn rest(&mut self, alloc: Global) -> Result<(), AllocError> {
        if self.idle > 0 {
            self.rows.push(Row {
                insns: Vec::new(alloc),
                idle: self.idle - 1,
            })?;
            self.idle = 0;
        }
        Ok(())
    }

    /// Adds a cycle in which these are issued.
    fn add(&mut self, alloc: Global, insns: Vec<Placed>) -> Result<(), AllocError> {
        if insns.is_empty() {
            if self.idle >= MOST_IDLE {
                self.rest(alloc)?;
            }
            self.idle = self.idle.saturating_add(1);
            return Ok(());
        }
        self.rest(alloc)?;
        self.rows.push(Row { insns, idle: 0 })?;
        Ok(())
    }
}

/// The rows of these cycles, from the first and up to the last: one for each in which something is issued, and NOPs of at most nine cycles
/// between.
///
/// # Errors
///
/// Where memory ran out.
pub(crate) fn rows_between(
    alloc: Global,
    placed: &[Placed],
    first: u16,
    last: u16,
) -> Result<Vec<Row>, AllocError> {
    let mut laying = Laying {
        rows: Vec::new(alloc),
        idle: 0,
    };
    for cycle in first..last {
        let insns = issued_in(alloc, placed, cycle)?;
        laying.add(alloc, insns)?;
    }
    laying.rest(alloc)?;
    Ok(laying.rows)
}
