//! What rows issue in a run that goes straight through them.

ghost use Rattle.std.specs.Prelude.{◌≡◌, ◌++◌, ◌+◌, ◌<◌, ◌≤◌, ℕ, map, length, slice_index_or, IfOk, IfSome, OnOk, OnErr, IsTrue, ◌↔◌, All};
ghost use Rattle.std.specs.Bool.{OnTrue};
ghost use Rattle.c62_packet.specs.Packed.{issue_of, HaveOneBranch, AreDrained};
ghost use Rattle.c62_rules.specs.Length.{landing_end};
ghost use Rattle.c62_flight.specs.Text.{aim_of};
ghost use Rattle.c62_flight.specs.Issued.{issue_in, issued_on};
ghost use Rattle.c62_flight.specs.Laid.{straight, straight_end};
ghost use Rattle.c62_rows.specs.Rows.{row_read, text_of};
ghost use Rattle.c62_loop.specs.Loop.{IsPipelined};
ghost use Rattle.c62_loop_match.specs.Parts.{loop_of};
ghost use Rattle.c62_loop_match.specs.Layout.{IsLaidOut};

use crate::parts::Pipelined;
use c62_exec::is_issuable;
use c62_packet::Placed;
use c62_rows::{Row, Rows};
use std::alloc::{AllocError, Global};

/// What rows issue, one begun when the row before it is over.
#[derive(Drop)]
pub(crate) struct Laid {
    /// The instructions with their cycles.
    pub issued: Vec<Placed>,
    /// The cycle in which the rows are over.
    pub end: u16,
}

/// The instructions of a row that is begun in a cycle.
fn issued_in(alloc: Global, insns: &[Placed], cycle: u16) -> Result<Vec<Placed>, AllocError>
    ensures { IfOk result (λ issued. issued.items ≡ map (issue_in cycle) insns.now) }
{
    insns
        .iter()
        .map(|placed| Placed { cycle, ..*placed })
        .collect(alloc)
}

/// The cycle in which a row is over that is begun in this one, where it fits.
fn end_of(row: &Row, start: u16) -> Option<u16>
    ensures { IfSome result (λ end. end ≡ start + row.now.idle + 1) }
{
    u16::try_from(u64::from(start) + u64::from(row.idle) + 1).ok()
}

/// What so many rows issue, the first begun in a cycle. `None` where the text has fewer rows, or a cycle is too great.
///
/// # Errors
///
/// `AllocError` where memory ran out.
pub(crate) fn lay_out(
    alloc: Global,
    rows: &Rows,
    first: usize,
    count: usize,
    start: u16,
) -> Result<Option<Laid>, AllocError>
    requires { first + count < 2 ^ 64 }
    ensures { IfOk result (λ laid. IfSome laid (IsLaidOut (text_of rows.now) first count start)) }
{
    let last = first + count;
    if rows.rows.len() < last {
        return Ok(None);
    }
    let mut issued = Vec::new(alloc);
    let mut end = start;
    for number in first..last {
        let row = &rows.rows[number];
        let of_row = issued_in(alloc, &row.insns, end)?;
        issued.extend_from_slice(&of_row)?;
        let Some(next) = end_of(row, end) else {
            return Ok(None);
        };
        end = next;
    }
    Ok(Some(Laid { issued, end }))
}

ghost use Rattle.std.specs.Prelude.{◌^◌};

/// Whether at most one of the instructions is a branch.
fn has_one_branch(placed: &[Placed]) -> bool
    ensures { IsTrue result ↔ HaveOneBranch placed.now }
{
    placed
        .iter()
        .filter(|each| each.insn.op().is_branch())
        .count()
        <= 1
}

/// The cycle after an instruction's last landing.
fn landing_end(placed: &Placed) -> u32
    ensures { result ≡ landing_end (issue_of placed.now) }
{
    u32::from(placed.cycle) + u32::from(placed.insn.greatest_delay()) + 1
}

/// Whether all lands before this cycle.
pub(crate) fn is_drained(cycles: u16, placed: &[Placed]) -> bool
    ensures { IsTrue result ↔ AreDrained cycles placed.now }
{
    placed
        .iter()
        .all(|each| landing_end(each) <= u32::from(cycles))
}

/// Whether in each of these rows at most one instruction is a branch.
fn have_one_branch(rows: &[Row]) -> bool
    ensures { OnTrue result (All (λ row. HaveOneBranch row.insns.items) rows.now) }
{
    for row in rows {
        if !has_one_branch(&row.insns) {
            return false;
        }
    }
    true
}

/// The row that a label names.
fn aim_of(rows: &Rows, label: u8) -> usize
    ensures { result ≡ aim_of (text_of rows.now) label }
{
    match rows.aims.get(usize::from(label)) {
        Some(row) => *row as usize,
        None => rows.rows.len(),
    }
}

/// Whether the rows stand in the text, with at most one branch each, and the label is at the kernel's first.
pub(crate) fn is_pipelined(pipelined: &Pipelined) -> bool
    ensures { OnTrue result (IsPipelined (loop_of pipelined.now)) }
{
    let kernel = pipelined.first as usize + pipelined.prolog as usize;
    let last = kernel + pipelined.kernel as usize + pipelined.epilog as usize;
    is_issuable(&pipelined.rows)
        && have_one_branch(&pipelined.rows.rows)
        && last <= pipelined.rows.rows.len()
        && pipelined.kernel > 0
        && aim_of(&pipelined.rows, pipelined.label) == kernel
}
