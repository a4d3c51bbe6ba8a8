//! Which instructions of the packets stand for which of the loop.

use crate::copied::copied;
use crate::extent::Extent;
use crate::seats::{
    Lines, Seat, Seats, count_free, entry_of, seats_of, take_each, take_first, take_last,
    take_later,
};
use c62_insn::Reg;
use c62_loop_match::{Beyond, Control, Pipelined, Region, Schedule, Stage, touches};
use c62_packet::Placed;
use c62_read::SerialInsn;
use c62_rows::Rows;
use std::alloc::{AllocError, Global};

/// What stands where.
#[derive(Drop)]
pub(crate) struct Match {
    pub pipelined: Pipelined,
    pub schedule: Schedule,
    pub control: Control,
    /// How many iterations prolog and epilog hold.
    pub most: u8,
}

/// What is begun of iterations past the last, where prolog and epilog hold fewer of some instructions than of others.
#[derive(Drop)]
pub(crate) struct Past {
    /// The instances, iteration by iteration.
    pub beyond: Vec<Beyond>,
    /// How many iterations the prolog holds of an instruction at most.
    pub deep: u8,
    /// The line of the first instruction of which they hold others than of the first.
    pub line: u32,
}

/// What is found of a loop in packets.
#[derive(Drop)]
pub(crate) enum Found {
    Whole(Match),
    /// The packets hold the loop, and begin these instances past its last iteration.
    Longer(Match, Past),
    /// They lack an instruction of this line of the text.
    Missing(u32),
    /// The loop lacks the instruction of this line of the packets.
    Extra(u32),
    /// Prolog and epilog hold other iterations of the instruction of this line than of the first.
    Uneven(u32),
    /// A cycle or a number of iterations is too great.
    TooLong,
}

/// The line of the first that is free and no control.
fn first_other(seats: &[Seat], counter: Reg) -> Option<u32> {
    for seat in seats {
        if !seat.taken && !touches(counter, &entry_of(&seat.placed)) {
            return Some(seat.placed.line);
        }
    }
    None
}

/// The free ones that touch the counter, in the order of their cycles, and in a cycle branches before steps.
fn control_in(alloc: Global, seats: &[Seat], counter: Reg) -> Result<Vec<Placed>, AllocError> {
    let mut control: Vec<Placed> = Vec::new(alloc);
    for seat in seats {
        if !seat.taken && touches(counter, &entry_of(&seat.placed)) {
            let cycle = seat.placed.cycle;
            let before = control.iter().position(|each| each.cycle == cycle);
            match before {
                Some(place) if seat.placed.insn.op().is_branch() => control.insert(
                    place,
                    seat.placed,
                )?,
                _ => control.push(seat.placed)?,
            }
        }
    }
    Ok(control)
}

/// The parts of a loop's packets.
#[derive(Drop)]
struct Parts {
    rows: Rows,
    lines: Lines,
    prolog: Seats,
    kernel: Seats,
    epilog: Seats,
}

fn parts_of(
    alloc: Global,
    rows: &Rows,
    extent: Extent,
    lines: Lines,
) -> Result<Option<Parts>, AllocError> {
    let Some(prolog) = seats_of(alloc, rows, extent.first, extent.kernel, 0)? else {
        return Ok(None);
    };
    let Some(kernel) = seats_of(alloc, rows, extent.kernel, extent.epilog, prolog.end)? else {
        return Ok(None);
    };
    let Some(epilog) = seats_of(alloc, rows, extent.epilog, extent.last, prolog.end)? else {
        return Ok(None);
    };
    Ok(Some(Parts {
        rows: copied(alloc, rows)?,
        lines,
        prolog,
        kernel,
        epilog,
    }))
}

/// Takes what stands before the loop from the prolog, whatever it does with the counter. An error is the line of one that is missing.
fn take_before(
    alloc: Global,
    parts: &mut Parts,
    entries: &[SerialInsn],
) -> Result<Result<Vec<Placed>, u32>, AllocError> {
    let mut before = Vec::new(alloc);
    for entry in entries {
        match take_first(&mut parts.prolog.seats, &mut parts.rows, entry, parts.lines) {
            Some(placed) => before.push(placed)?,
            None => return Ok(Err(entry.line)),
        }
    }
    Ok(Ok(before))
}

/// Takes what stands behind the loop from the epilog, the last first.
fn take_behind(
    alloc: Global,
    parts: &mut Parts,
    counter: Reg,
    entries: &[SerialInsn],
) -> Result<Result<Vec<Placed>, u32>, AllocError> {
    let mut behind = Vec::new(alloc);
    for entry in entries.iter().rev() {
        if !touches(counter, entry) {
            match take_last(&mut parts.epilog.seats, &mut parts.rows, entry, parts.lines) {
                Some(placed) => behind.insert(0, placed)?,
                None => return Ok(Err(entry.line)),
            }
        }
    }
    Ok(Ok(behind))
}

/// Which one it is of instructions of the loop that are the same. They depend on each other, so their instances come in turn.
#[derive(Clone, Copy)]
struct Turn {
    /// How many of the loop are this instruction.
    copies: usize,
    /// How many of these stand before it.
    before: usize,
    /// How many instances of all of them the prolog holds.
    early: usize,
}

impl Turn {
    fn of(entries: &[SerialInsn], number: usize, early: usize) -> Turn {
        let mut turn = Turn {
            copies: 0,
            before: 0,
            early,
        };
        let Some(own) = entries.get(number) else {
            return turn;
        };
        for (other, entry) in entries.iter().enumerate() {
            if own.insn.same_but_for_the_unit(&entry.insn) {
                turn.copies = turn.copies.saturating_add(1);
                if other < number {
                    turn.before = turn.before.saturating_add(1);
                }
            }
        }
        turn
    }

    /// How many of them are left to be taken, with this one.
    fn left(&self) -> usize {
        self.copies.saturating_sub(self.before)
    }

    /// How many of those stand before it in the kernel. Where the prolog holds one instance more of it than of the last copy, these are
    /// all copies of which it doesn't; else there are none.
    fn later(&self) -> usize {
        match self.early.checked_rem(self.copies) {
            Some(more) if self.before < more => self.copies.saturating_sub(more),
            _ => 0,
        }
    }
}

/// Takes the instances of an instruction of the loop. `None` where the kernel lacks it.
fn take_stage(
    alloc: Global,
    parts: &mut Parts,
    entry: &SerialInsn,
    turn: Turn,
) -> Result<Option<Stage>, AllocError> {
    let (rows, lines) = (&mut parts.rows, parts.lines);
    let Some(kernel) = take_later(&mut parts.kernel.seats, rows, entry, lines, turn.later()) else {
        return Ok(None);
    };
    let each = turn.left();
    let early = take_each(alloc, &mut parts.prolog.seats, rows, entry, lines, 0, each)?;
    let late = take_each(
        alloc,
        &mut parts.epilog.seats,
        rows,
        entry,
        lines,
        turn.later(),
        each,
    )?;
    Ok(Some(Stage {
        early,
        kernel,
        late,
    }))
}

/// How often the prolog holds each of these.
fn early_counts(
    alloc: Global,
    seats: &[Seat],
    entries: &[SerialInsn],
) -> Result<Vec<usize>, AllocError> {
    let mut counts = Vec::new(alloc);
    for entry in entries {
        counts.push(count_free(seats, entry.insn))?;
    }
    Ok(counts)
}

/// Takes the instances of the loop's instructions.
fn take_stages(
    alloc: Global,
    parts: &mut Parts,
    counter: Reg,
    entries: &[SerialInsn],
) -> Result<Result<Vec<Stage>, u32>, AllocError> {
    let counts = early_counts(alloc, &parts.prolog.seats, entries)?;
    let mut stages = Vec::new(alloc);
    for (number, entry) in entries.iter().enumerate() {
        if !touches(counter, entry) {
            let early = counts.get(number).copied().unwrap_or(0);
            match take_stage(alloc, parts, entry, Turn::of(entries, number, early))? {
                Some(stage) => stages.push(stage)?,
                None => return Ok(Err(entry.line)),
            }
        }
    }
    Ok(Ok(stages))
}

/// How many iterations prolog and epilog hold of an instruction.
fn held(stage: &Stage) -> usize {
    stage.early.len().saturating_add(stage.late.len())
}

/// How many they hold of each, or the line of the first of which they hold others.
fn most_of(stages: &[Stage]) -> Result<usize, u32> {
    let most = match stages.first() {
        Some(stage) => held(stage),
        None => 0,
    };
    for stage in stages {
        if held(stage) != most {
            return Err(stage.kernel.line);
        }
    }
    Ok(most)
}

/// The line of the first instruction of the packets that stands for none of the loop and doesn't count.
fn extra_in(parts: &Parts, counter: Reg) -> Option<u32> {
    if let Some(line) = first_other(&parts.prolog.seats, counter) {
        return Some(line);
    }
    if let Some(line) = first_other(&parts.kernel.seats, counter) {
        return Some(line);
    }
    for seat in &parts.epilog.seats {
        if !seat.taken {
            return Some(seat.placed.line);
        }
    }
    None
}

/// What is found where each instruction of the loop is, and prolog and epilog hold so many iterations of each, or of some more.
fn gathered(
    alloc: Global,
    parts: Parts,
    schedule: Schedule,
    counter: Reg,
    extent: Extent,
    most: usize,
) -> Result<Found, AllocError> {
    let Ok(most) = u8::try_from(most) else {
        return Ok(Found::TooLong);
    };
    if let Some(line) = extra_in(&parts, counter) {
        return Ok(Found::Extra(line));
    }
    let control = Control {
        early: control_in(alloc, &parts.prolog.seats, counter)?,
        kernel: control_in(alloc, &parts.kernel.seats, counter)?,
    };
    let pipelined = Pipelined {
        rows: parts.rows,
        first: extent.first,
        prolog: extent.kernel.saturating_sub(extent.first),
        kernel: extent.epilog.saturating_sub(extent.kernel),
        epilog: extent.last.saturating_sub(extent.epilog),
        label: extent.label,
    };
    Ok(Found::Whole(Match {
        pipelined,
        schedule,
        control,
        most,
    }))
}

/// The fewest iterations that prolog and epilog hold of an instruction, and the most.
fn least_and_most(stages: &[Stage]) -> (usize, usize) {
    let mut least = usize::MAX;
    let mut most = 0;
    for stage in stages {
        least = least.min(held(stage));
        most = most.max(held(stage));
    }
    (least, most)
}

/// How many iterations the prolog holds of an instruction at most.
fn deepest(stages: &[Stage]) -> usize {
    let mut deep = 0;
    for stage in stages {
        deep = deep.max(stage.early.len());
    }
    deep
}

/// The instances of iterations behind so many, one iteration behind the other.
fn beyond_of(
    alloc: Global,
    stages: &[Stage],
    least: usize,
    most: u8,
) -> Result<Vec<Beyond>, AllocError> {
    let mut beyond = Vec::new(alloc);
    for number in 0..most {
        if least <= usize::from(number) {
            for (place, stage) in stages.iter().enumerate() {
                if usize::from(number) < held(stage) {
                    beyond.push(Beyond { place, number })?;
                }
            }
        }
    }
    Ok(beyond)
}

/// What is found where prolog and epilog hold others of the instruction of this line than of the first.
fn longer(
    alloc: Global,
    parts: Parts,
    schedule: Schedule,
    counter: Reg,
    extent: Extent,
    line: u32,
) -> Result<Found, AllocError> {
    let (least, most) = least_and_most(&schedule.stages);
    let Ok(most) = u8::try_from(most) else {
        return Ok(Found::Uneven(line));
    };
    let Ok(deep) = u8::try_from(deepest(&schedule.stages)) else {
        return Ok(Found::Uneven(line));
    };
    let beyond = beyond_of(alloc, &schedule.stages, least, most)?;
    match gathered(alloc, parts, schedule, counter, extent, least)? {
        Found::Whole(found) => Ok(Found::Longer(found, Past { beyond, deep, line })),
        _ => Ok(Found::Uneven(line)),
    }
}

/// The region's instructions, found again in the rows of a loop: the first of those that are the same is that of the first iteration, and
/// those that the loop itself has more than once come in turn.
///
/// # Errors
///
/// `AllocError` where memory ran out.
pub(crate) fn find(
    alloc: Global,
    region: &Region,
    rows: &Rows,
    extent: Extent,
    lines: Lines,
) -> Result<Found, AllocError> {
    let Some(mut parts) = parts_of(alloc, rows, extent, lines)? else {
        return Ok(Found::TooLong);
    };
    let before = match take_before(alloc, &mut parts, &region.before)? {
        Ok(before) => before,
        Err(line) => return Ok(Found::Missing(line)),
    };
    let behind = match take_behind(alloc, &mut parts, region.counter, &region.behind)? {
        Ok(behind) => behind,
        Err(line) => return Ok(Found::Missing(line)),
    };
    let stages = match take_stages(alloc, &mut parts, region.counter, &region.body)? {
        Ok(stages) => stages,
        Err(line) => return Ok(Found::Missing(line)),
    };
    let interval = parts.kernel.end.saturating_sub(parts.prolog.end);
    let schedule = Schedule {
        before,
        stages,
        behind,
        interval,
    };
    match most_of(&schedule.stages) {
        Ok(most) => gathered(alloc, parts, schedule, region.counter, extent, most),
        Err(line) => longer(alloc, parts, schedule, region.counter, extent, line),
    }
}
