//! The instructions of rows, taken one by one.

use c62_insn::Insn;
use c62_packet::Placed;
use c62_read::SerialInsn;
use c62_rows::Rows;
use std::alloc::{AllocError, Global};

/// An instruction of a row, and whether it is taken for one of the serial text.
#[derive(Clone, Copy)]
pub(crate) struct Seat {
    /// The instruction with its cycle.
    pub placed: Placed,
    /// Its row.
    row: usize,
    /// Its place in the row.
    place: usize,
    /// Whether it is taken.
    pub taken: bool,
}

/// The instructions of rows that are begun one behind the other.
#[derive(Drop)]
pub(crate) struct Seats {
    /// In the order of their cycles.
    pub seats: Vec<Seat>,
    /// The cycle in which the rows are over.
    pub end: u16,
}

/// The instruction without its place.
pub(crate) fn entry_of(placed: &Placed) -> SerialInsn {
    SerialInsn {
        insn: placed.insn,
        line: placed.line,
    }
}

/// The instructions of so many rows, the first begun in a cycle. `None` where the text has fewer or a cycle is too great.
///
/// # Errors
///
/// `AllocError` where memory ran out.
pub(crate) fn seats_of(
    alloc: Global,
    rows: &Rows,
    first: u32,
    last: u32,
    start: u16,
) -> Result<Option<Seats>, AllocError> {
    let mut seats = Vec::new(alloc);
    let mut end = start;
    for row in first as usize..last as usize {
        let Some(of_row) = rows.rows.get(row) else {
            return Ok(None);
        };
        for (place, placed) in of_row.insns.iter().enumerate() {
            seats.push(Seat {
                placed: Placed {
                    cycle: end,
                    ..*placed
                },
                row,
                place,
                taken: false,
            })?;
        }
        let next = u64::from(end)
            .saturating_add(u64::from(of_row.idle))
            .saturating_add(1);
        let Ok(fitting) = u16::try_from(next) else {
            return Ok(None);
        };
        end = fitting;
    }
    Ok(Some(Seats { seats, end }))
}

/// Gives an instruction of the text a line.
fn set_line(rows: &mut Rows, seat: &Seat, line: u32) {
    if let Some(row) = rows.rows.get_mut(seat.row)
        && let Some(placed) = row.insns.get_mut(seat.place)
    {
        placed.line = line;
    }
}

/// Whose lines the instructions of packets have that are taken for some of the serial text.
#[derive(Clone, Copy)]
pub(crate) enum Lines {
    OfText,
    OfPackets,
}

/// Takes the instruction of this number for one of the serial text.
fn take(
    seats: &mut [Seat],
    rows: &mut Rows,
    number: usize,
    entry: &SerialInsn,
    lines: Lines,
) -> Option<Placed> {
    let seat = seats.get_mut(number)?;
    seat.taken = true;
    match lines {
        Lines::OfText => {
            seat.placed.line = entry.line;
            set_line(rows, seat, entry.line);
        }
        Lines::OfPackets => {}
    }
    Some(seat.placed)
}

/// Whether it isn't taken and is this instruction.
fn is_free(seat: &Seat, insn: Insn) -> bool {
    !seat.taken && insn.same_but_for_the_unit(&seat.placed.insn)
}

/// How many are free and this instruction.
pub(crate) fn count_free(seats: &[Seat], insn: Insn) -> usize {
    seats.iter().filter(|seat| is_free(seat, insn)).count()
}

/// The number of the first that is free and this instruction.
fn first_free(seats: &[Seat], insn: Insn) -> Option<usize> {
    seats.iter().position(|seat| is_free(seat, insn))
}

/// The number of the last.
fn last_free(seats: &[Seat], insn: Insn) -> Option<usize> {
    let mut found = None;
    for number in 0..seats.len() {
        if is_free(&seats[number], insn) {
            found = Some(number);
        }
    }
    found
}

/// Takes the first that is this instruction.
pub(crate) fn take_first(
    seats: &mut [Seat],
    rows: &mut Rows,
    entry: &SerialInsn,
    lines: Lines,
) -> Option<Placed> {
    let number = first_free(seats, entry.insn)?;
    take(seats, rows, number, entry, lines)
}

/// Takes the last.
pub(crate) fn take_last(
    seats: &mut [Seat],
    rows: &mut Rows,
    entry: &SerialInsn,
    lines: Lines,
) -> Option<Placed> {
    let number = last_free(seats, entry.insn)?;
    take(seats, rows, number, entry, lines)
}

/// Takes the one that is this instruction with so many free ones before it.
pub(crate) fn take_later(
    seats: &mut [Seat],
    rows: &mut Rows,
    entry: &SerialInsn,
    lines: Lines,
    passed: usize,
) -> Option<Placed> {
    let mut left = passed;
    for number in 0..seats.len() {
        if is_free(&seats[number], entry.insn) {
            if left == 0 {
                return take(seats, rows, number, entry, lines);
            }
            left -= 1;
        }
    }
    None
}

/// Takes those that are this instruction, in the order of their cycles: so many free ones are passed over, then each of so many is taken.
///
/// # Errors
///
/// `AllocError` where memory ran out.
pub(crate) fn take_each(
    alloc: Global,
    seats: &mut [Seat],
    rows: &mut Rows,
    entry: &SerialInsn,
    lines: Lines,
    passed: usize,
    each: usize,
) -> Result<Vec<Placed>, AllocError> {
    let mut all = Vec::new(alloc);
    let mut left = passed;
    for number in 0..seats.len() {
        if is_free(&seats[number], entry.insn) {
            if left > 0 {
                left -= 1;
            } else if let Some(placed) = take(seats, rows, number, entry, lines) {
                all.push(placed)?;
                left = each.saturating_sub(1);
            }
        }
    }
    Ok(all)
}
