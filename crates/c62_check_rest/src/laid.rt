//! What rows issue that are begun one behind the other (docs/CHECK.md, "Other blocks").

ghost use Rattle.std.specs.Prelude.{◌≡◌, ◌+◌, ◌<◌, ◌^◌, map, IfOk, IfSome};
ghost use Rattle.c62_rules.specs.Length.{landing_end};
ghost use Rattle.c62_packet.specs.Packed.{issue_of, is_branching};
ghost use Rattle.c62_flight.specs.Text.{aim_of, row_of};
ghost use Rattle.c62_flight.specs.Issued.{issue_in};
ghost use Rattle.c62_rows.specs.Rows.{text_of};
ghost use Rattle.c62_check_rest.specs.Rows.{IsLaidOut, is_over_by, are_over_by, has_slots, have_slots};

use c62_packet::Placed;
use c62_rows::{Row, Rows};
use std::alloc::{AllocError, Global};

/// What rows issue, each begun when the one before it is over.
#[derive(Drop)]
pub(crate) struct Laid {
    /// The instructions with their cycles.
    pub issued: Vec<Placed>,
    /// The cycle in which the rows are over.
    pub end: u16,
}

/// The instructions of a row that is begun in a cycle.
fn issued_in(alloc: Global, insns: &[Placed], cycle: u16) -> Result<Vec<Placed>, AllocError>
    ensures { IfOk result (λ issued. issued.items ≡ map (issue_in cycle) insns.now) }
{
    insns
        .iter()
        .map(|placed| Placed { cycle, ..*placed })
        .collect(alloc)
}

/// The cycle in which a row is over that is begun in this one, where it fits.
fn end_of(row: &Row, start: u16) -> Option<u16>
    ensures { IfSome result (λ end. end ≡ start + row.now.idle + 1) }
{
    u16::try_from(u64::from(start) + u64::from(row.idle) + 1).ok()
}

/// What so many rows issue, the first begun in cycle 0. `None` where the text has fewer rows, or a cycle is too great.
///
/// # Errors
///
/// `AllocError` where memory ran out.
pub(crate) fn lay_out(
    alloc: Global,
    rows: &Rows,
    first: usize,
    count: usize,
) -> Result<Option<Laid>, AllocError>
    requires { first + count < 2 ^ 64 }
    ensures { IfOk result (λ laid. IfSome laid (IsLaidOut (text_of rows.now) first count)) }
{
    let last = first + count;
    if rows.rows.len() < last {
        return Ok(None);
    }
    let mut issued = Vec::new(alloc);
    let mut end = 0;
    for number in first..last {
        let row = &rows.rows[number];
        let of_row = issued_in(alloc, &row.insns, end)?;
        issued.extend_from_slice(&of_row)?;
        let Some(next) = end_of(row, end) else {
            return Ok(None);
        };
        end = next;
    }
    Ok(Some(Laid { issued, end }))
}

/// The row that a label names.
pub(crate) fn aim_of(rows: &Rows, label: u8) -> usize
    ensures { result ≡ aim_of (text_of rows.now) label }
{
    match rows.aims.get(usize::from(label)) {
        Some(row) => *row as usize,
        None => rows.rows.len(),
    }
}

/// How many cycles a row takes behind its first; a text goes on behind its last row as rows of one cycle.
pub(crate) fn idle_of(rows: &Rows, row: usize) -> u32
    ensures { result ≡ (row_of (text_of rows.now) row).idle }
{
    match rows.rows.get(row) {
        Some(row) => row.idle,
        None => 0,
    }
}

/// The cycle after an instruction's last landing, and of a branch that in which it takes effect.
fn over_in(placed: &Placed) -> u32
    ensures { result ≡ over_in placed.now }
{
    if placed.insn.op().is_branch() {
        u32::from(placed.cycle) + 6
    } else {
        u32::from(placed.cycle) + u32::from(placed.insn.greatest_delay()) + 1
    }
}

ghost use Rattle.c62_check_rest.specs.Rows.{over_in};

fn is_over_by(end: u16, placed: &Placed) -> bool
    ensures { result ≡ is_over_by end placed.now }
{
    over_in(placed) <= u32::from(end)
}

/// Whether all that these write has landed by a cycle, and each branch has taken effect.
pub(crate) fn are_over_by(end: u16, placed: &[Placed]) -> bool
    ensures { result ≡ are_over_by end placed.now }
{
    placed.iter().all(|each| is_over_by(end, each))
}

fn has_slots(end: u16, idle: u32, placed: &Placed) -> bool
    ensures { result ≡ has_slots end idle placed.now }
{
    if placed.insn.op().is_branch() {
        u64::from(end) <= u64::from(placed.cycle) + 6 + u64::from(idle)
    } else {
        true
    }
}

/// Whether none of rows that are over then, the last of which takes so many cycles behind its first, begins behind the delay slots of one
/// of these.
pub(crate) fn have_slots(end: u16, idle: u32, placed: &[Placed]) -> bool
    ensures { result ≡ have_slots end idle placed.now }
{
    placed.iter().all(|each| has_slots(end, idle, each))
}
