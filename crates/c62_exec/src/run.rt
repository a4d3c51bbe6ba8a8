//! Runs a text of packets.

ghost use Rattle.std.specs.Prelude.{◌≡◌, ◌+◌, ◌*◌, ◌<◌, ◌≤◌, ◌^◌, length, max, min, Some, IfSome, IfOk, OnErr, MatchOption, MatchResult, OnOk};
ghost use Rattle.c62_insn.specs.declared.effect.Target.TheVariants.{Register as ToRegister};
ghost use Rattle.c62_serial.specs.State.{line_capacity};
ghost use Rattle.c62_flight.specs.Text.{At, Outside, row_of, leads_to, position_after, IsIssuable};
ghost use Rattle.c62_flight.specs.Flight.{Flies};
ghost use Rattle.c62_rows.specs.Rows.{text_of};
ghost use Rattle.c62_exec.specs.Step.{Fit, on_way, gone, row_passes, end_of};
ghost use Rattle.c62_exec.specs.Counts.{CountsFlight, FliesTallied, IsFresh};

use crate::tally::{Count, Tally};
use crate::underway::{Passed, Underway};
use c62_flight::Stop;
use c62_insn::Target;
use c62_rows::Rows;
use c62_serial::State;
use std::alloc::{AllocError, Global};

/// How a run stopped, and after how many cycles.
#[derive(Clone, Copy, PartialEq, Eq, Debug)]
pub struct Flown {
    pub stop: Stop,
    pub cycles: u64,
}

/// The address of row 0.
const FIRST_ADDRESS: u32 = 0x8000_0000;

/// How far the addresses of rows are apart.
const ROW_BYTES: u32 = 32;

/// The most instructions of a row, one on each unit.
const UNITS: usize = 8;

/// The row whose address a word is: one of the text, or the one behind the last.
fn row_at(rows: &Rows, word: u32) -> Option<usize>
    ensures position { MatchOption result (leads_to (text_of rows.now) (ToRegister word) ≡ Outside word)
        (λ row. leads_to (text_of rows.now) (ToRegister word) ≡ At row) }
    ensures small { IfSome result (λ row. row < 2 ^ 32) }
{
    let distance = word.checked_sub(FIRST_ADDRESS)?;
    let row = (distance / ROW_BYTES) as usize;
    if distance % ROW_BYTES == 0 && row <= rows.rows.len() {
        Some(row)
    } else {
        None
    }
}

/// The row where a run goes on when a row is over, or the word with which it leaves the text.
pub fn row_after(rows: &Rows, row: usize, turn: Option<Target>) -> Result<usize, u32>
    requires row { row < 2 ^ 63 }
    requires rows { IsIssuable (text_of rows.now) }
    ensures position { MatchResult result (λ next. position_after (text_of rows.now) row turn ≡ At next)
        (λ word. position_after (text_of rows.now) row turn ≡ Outside word) }
    ensures bound { IfOk result (λ next. next ≤ max (row + 1) (2 ^ 32)) }
{
    match turn {
        None => Ok(row + 1),
        Some(Target::Block(number)) => match rows.aims.get(usize::from(number)) {
            Some(aim) => Ok(*aim as usize),
            None => Ok(rows.rows.len()),
        },
        Some(Target::Register(word)) => row_at(rows, word).ok_or(word),
    }
}

/// The place of a row among the counts, of which the rows behind the last of a text have one.
#[tactic(auto, using(crate::proofs::Loop::text_size))]
fn place_of(rows: &Rows, row: usize) -> usize
    ensures { result ≡ min row (length (text_of rows.now).rows) }
{
    row.min(rows.rows.len())
}

/// Runs a row of the text, or one behind its last, that begins in a cycle.
pub fn run_row(
    rows: &Rows,
    row: usize,
    start: u64,
    underway: &mut Underway,
    state: &mut State,
) -> Passed
    requires rows { IsIssuable (text_of rows.now) }
    requires soon { start < 2 ^ 62 }
    requires fit { Fit start (row_of (text_of rows.now) row).insns underway.old.pipe state.old.machine }
    requires room { 8 ≤ state.old.room }
    ensures passed { gone result (on_way underway.new.pipe underway.new.turns state.new.machine)
        ≡ row_passes (row_of (text_of rows.now) row).insns (row_of (text_of rows.now) row).idle start
        (on_way underway.old.pipe underway.old.turns state.old.machine) }
    ensures end { end_of result ≤ start + 2 ^ 32 }
    ensures capacity { line_capacity state.new ≡ line_capacity state.old }
{
    match rows.rows.get(row) {
        Some(row) => underway.run_row(&row.insns, row.idle, start, state),
        None => underway.run_row(&[], 0, start, state),
    }
}

/// Runs a text of packets from a row on, as [`fly`] does, and counts the rows that it begins.
fn fly_rows(
    rows: &Rows,
    first: u32,
    limit: u32,
    state: &mut State,
    tally: &mut Tally,
) -> Result<Flown, AllocError>
    requires rows { IsIssuable (text_of rows.now) }
    requires fresh { IsFresh (length tally.old.counts.items) tally.old }
    ensures ok { IfOk result (λ flown. FliesTallied (text_of rows.now) first limit state.old.machine
        flown.stop flown.cycles state.new.machine tally.new) }
    ensures size { OnOk result (length tally.new.counts.items ≡ length tally.old.counts.items) }
    ensures soon { IfOk result (λ flown. flown.cycles ≤ 2 ^ 35) }
    ensures full { OnErr result (state.old.room < 8 * (length rows.now.rows.items + 1)) }
    ensures err { OnErr result (state.new ≡ state.old) }
{
    state.room(UNITS * (rows.rows.len() + 1))?;
    // It tells what holds of every state.
    let _ = state.faults();
    let most = u64::from(limit);
    let mut underway = Underway::new();
    let mut row = first as usize;
    let mut cycle = 0;
    while row < rows.rows.len() || underway.turns.any() {
        if cycle >= most {
            return Ok(underway.come_down(Stop::Limit, cycle, state));
        }
        tally.begin(place_of(rows, row), cycle);
        let turn = match run_row(rows, row, cycle, &mut underway, state) {
            Passed::Over(end, turn) => {
                cycle = end;
                turn
            }
            Passed::Broken(broken, stop) => {
                underway.settle(broken + 1, 4, state);
                return Ok(Flown {
                    stop,
                    cycles: broken + 1,
                });
            }
        };
        row = match row_after(rows, row, turn) {
            Ok(next) => next,
            Err(word) => return Ok(underway.come_down(Stop::Register(word), cycle, state)),
        };
    }
    Ok(underway.come_down(Stop::End, cycle, state))
}

/// Runs a text of packets from a row on, cycle by cycle, with all that is in flight: writes land and
/// branches take effect over labels, in the slots of other branches and behind the last packet. Before
/// each row it looks at the limit of cycles. Answers how the run stopped, and after how many cycles;
/// whatever stopped it, all that it issued lands.
///
/// Room for the faults of eight instructions a row, and of eight more, is made first, by the state's
/// own allocator. Nothing else takes memory, however long the run.
///
/// # Errors
///
/// `AllocError` where that room was missing and memory runs out. The state is then as before.
pub fn fly(
    alloc: Global,
    rows: &Rows,
    first: u32,
    limit: u32,
    state: &mut State,
) -> Result<Flown, AllocError>
    requires { IsIssuable (text_of rows.now) }
    ensures ok { IfOk result (λ flown. Flies (text_of rows.now) first limit state.old.machine
        flown.stop flown.cycles state.new.machine) }
    ensures full { OnErr result (state.old.room < 8 * (length rows.now.rows.items + 1)) }
    ensures err { OnErr result (state.new ≡ state.old) }
{
    let mut tally = Tally::none(alloc);
    fly_rows(rows, first, limit, state, &mut tally)
}

/// Runs a text of packets as [`fly`] does, and counts of each row, and last of all rows behind the
/// text's last, how often it was begun, and how many of the run's cycles were its own.
///
/// # Errors
///
/// `AllocError` where memory ran out. The state is then as before.
pub fn fly_counted(
    alloc: Global,
    rows: &Rows,
    first: u32,
    limit: u32,
    state: &mut State,
) -> Result<(Flown, Vec<Count>), AllocError>
    requires { IsIssuable (text_of rows.now) }
    ensures ok { IfOk result (λ ran. CountsFlight (text_of rows.now) first limit state.old.machine
        ran.0.stop ran.0.cycles state.new.machine ran.1.items) }
    ensures soon { IfOk result (λ ran. ran.0.cycles ≤ 2 ^ 35) }
    ensures err { OnErr result (state.new ≡ state.old) }
{
    let mut tally = Tally::new(alloc, rows.rows.len() + 1)?;
    let flown = fly_rows(rows, first, limit, state, &mut tally)?;
    tally.close(flown.cycles);
    Ok((flown, tally.counts))
}
