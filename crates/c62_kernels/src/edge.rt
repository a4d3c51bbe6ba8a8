//! Dependences between the instructions of a loop's work, within an iteration and from one to a later one
//! (docs/MACHINE.md, "Dependences").

use c62_insn::{Cond, Insn, Operands, Reg};
use c62_pair::{Covered, RegSet, Uses, as_bound, by_order, by_registers};
use std::alloc::{AllocError, Global};

/// A dependence between two instructions of a loop.
#[derive(Clone, Copy)]
pub(crate) struct Edge {
    /// The number of the earlier instruction.
    pub from: u16,
    /// The number of the later one.
    pub to: u16,
    /// The least number of cycles from the earlier to the later one. It may be negative.
    pub latency: i32,
    /// How many iterations the later one is behind the earlier.
    pub apart: i32,
}

/// How many iterations are looked at of a loop: what is written between two instructions doesn't grow beyond.
pub const OF_LOOPS: i32 = 3;

/// How many are looked at of straight instructions.
pub const OF_STRAIGHT: i32 = 1;

/// Whether at most one of two instructions runs, where these registers are written between.
fn are_exclusive(first: Option<Cond>, second: Option<Cond>, written: RegSet) -> bool {
    match (first, second) {
        (Some(one), Some(other)) => {
            one.reg == other.reg && one.negated != other.negated && !written.has(one.reg)
        }
        _ => false,
    }
}

/// Whether two accesses never meet, where these registers are written between.
fn are_disjoint(first: Option<Covered>, second: Option<Covered>, written: RegSet) -> bool {
    match (first, second) {
        (Some(one), Some(other)) => one.is_apart(other) && !written.has(one.base),
        _ => false,
    }
}

/// By how much the cycle of the second must exceed that of the first, as a number of c62_pair, where these registers are written from
/// the first on and before the second. What is excused needs no order in memory.
pub fn needs(first: &Uses, second: &Uses, written: RegSet, excused: bool) -> u8 {
    let exclusive = are_exclusive(first.insn.cond(), second.insn.cond(), written);
    let apart = are_disjoint(first.covered, second.covered, written);
    by_registers(exclusive, first, second).max(by_order(apart || excused, first, second))
}

/// The base of a load or store.
fn base_in(insn: &Insn) -> Option<Reg> {
    match insn.operands() {
        Operands::Access { base, .. } => Some(base),
        _ => None,
    }
}

/// Whether it is promised that two instructions of two iterations never touch one byte.
fn is_promised(apart: RegSet, first: &Insn, second: &Insn) -> bool {
    match (base_in(first), base_in(second)) {
        (Some(one), Some(other)) => { apart.has(one) && apart.has(other) && one != other }
        _ => false,
    }
}

/// What is asked of the instructions behind one, up to those of some iterations later.
#[derive(Drop)]
struct Walk<'a> {
    work: &'a [Uses],
    bases: RegSet,
    /// The number of the instruction, and what it uses.
    from: u16,
    first: Uses,
    /// What is written from it on.
    written: RegSet,
    /// The greatest number that was found of each instruction.
    found: Vec<u8>,
}

impl<'a> Walk<'a> {
    /// Adds the dependence of an instruction so many iterations later, where it asks for more than those of earlier ones.
    fn add(&mut self, edges: &mut Vec<Edge>, to: usize, apart: i32) -> Result<(), AllocError> {
        let (Some(second), Some(found)) = (self.work.get(to), self.found.get_mut(to)) else {
            return Ok(());
        };
        let excused = apart > 0 && is_promised(self.bases, &self.first.insn, &second.insn);
        let number = needs(&self.first, second, self.written, excused);
        self.written = self.written.joined(second.written);
        if number <= *found {
            return Ok(());
        }
        *found = number;
        if let Some(latency) = as_bound(number) {
            edges.push(Edge {
                from: self.from,
                to: u16::try_from(to).unwrap_or(u16::MAX),
                latency,
                apart,
            })?;
        }
        Ok(())
    }
}

/// Adds the dependences of what stands behind an instruction.
fn add_behind(
    alloc: Global,
    edges: &mut Vec<Edge>,
    work: &[Uses],
    bases: RegSet,
    iterations: i32,
    from: usize,
) -> Result<(), AllocError> {
    let Some(first) = work.get(from) else {
        return Ok(());
    };
    let mut walk = Walk {
        work,
        bases,
        from: u16::try_from(from).unwrap_or(u16::MAX),
        first: *first,
        written: first.written,
        found: vec![in alloc; 0; work.len()]?,
    };
    for apart in 0..iterations {
        let start = if apart == 0 {
            from.saturating_add(1)
        } else {
            0
        };
        for to in start..work.len() {
            walk.add(edges, to, apart)?;
        }
    }
    Ok(())
}

/// All dependences of instructions in so many iterations, where loads and stores from two of these bases never touch one byte in two of
/// them, but for those that others imply: of the same two instructions in nearer iterations.
///
/// # Errors
///
/// Where memory ran out.
pub(crate) fn edges_of(
    alloc: Global,
    work: &[Uses],
    bases: RegSet,
    iterations: i32,
) -> Result<Vec<Edge>, AllocError> {
    let mut edges = Vec::new(alloc);
    for from in 0..work.len() {
        add_behind(alloc, &mut edges, work, bases, iterations, from)?;
    }
    Ok(edges)
}
