//! What is in flight from issue to landing.

ghost use Rattle.std.specs.Prelude.{◌≡◌, ◌≤◌, All, OnOk};
ghost use Rattle.std.specs.List.{flat_map};
ghost use Rattle.c62_grid.specs.Landing.{landings_by, landings_of};
ghost use Rattle.c62_markup.specs.Page.{Adds};
ghost use Rattle.c62_page.specs.Flight.{bar, bar_begin, bar_place, bar_words, bars, bars_by, flight_of, flight_part, flight_table};

use crate::frame::FLIGHT_BEGIN;
use crate::tags::{BAR_END, BAR_FROM, ROW_LINE, TABLE_END, TO_LINE};
use crate::text::push_linked;
use crate::words::landed_name;
use c62_grid::{Landing, landings_of};
use c62_markup::{push_number_in, push_own, push_text_in};
use c62_packet::Placed;
use std::alloc::{AllocError, Global};

/// What lands, and the line of its instruction.
#[tactic(auto, unfolding(crate::specs::Flight::bar_begin))]
fn push_bar_begin(
    alloc: Global,
    out: &mut Vec<u8>,
    line: u32,
    landing: &Landing,
) -> Result<(), AllocError>
    ensures { OnOk result (Adds out.old.items (bar_begin line landing.now) out.new.items) }
{
    let name = landed_name(alloc, landing.what)?;
    push_number_in(out, ROW_LINE, u64::from(line), "'>")?;
    push_text_in(out, "<th>", name.as_bytes(), "</th><td>")?;
    push_linked(out, TO_LINE, u64::from(line))
}

/// Where the bar begins, and how long it is.
#[tactic(auto, unfolding(crate::specs::Flight::bar_place))]
fn push_bar_place(out: &mut Vec<u8>, issue: u16, landing: u32) -> Result<(), AllocError>
    ensures { OnOk result (Adds out.old.items (bar_place issue landing) out.new.items) }
{
    let length = (u64::from(landing) + 1).saturating_sub(u64::from(issue));
    push_number_in(out, BAR_FROM, u64::from(issue), ";--for:")?;
    push_number_in(out, "", length, "'>")
}

/// The words of a bar.
#[tactic(auto, unfolding(crate::specs::Flight::bar_words))]
fn push_bar_words(
    alloc: Global,
    out: &mut Vec<u8>,
    line: u32,
    issue: u16,
    landing: &Landing,
) -> Result<(), AllocError>
    ensures { OnOk result (Adds out.old.items (bar_words line issue landing.now) out.new.items) }
{
    let name = landed_name(alloc, landing.what)?;
    push_text_in(out, "", name.as_bytes(), " from line ")?;
    push_number_in(out, "", u64::from(line), ": ")?;
    push_number_in(out, "", u64::from(issue), " to ")?;
    push_number_in(out, "", u64::from(landing.cycle), BAR_END)
}

/// The row of a landing.
#[tactic(auto, unfolding(crate::specs::Flight::bar))]
fn push_bar(
    alloc: Global,
    out: &mut Vec<u8>,
    placed: &Placed,
    landing: &Landing,
) -> Result<(), AllocError>
    ensures { OnOk result (Adds out.old.items (bar placed.now.line placed.now.cycle landing.now) out.new.items) }
{
    push_bar_begin(alloc, out, placed.line, landing)?;
    push_bar_place(out, placed.cycle, landing.cycle)?;
    push_bar_words(alloc, out, placed.line, placed.cycle, landing)
}

/// The rows of landings of an instruction.
fn push_bars_of(
    alloc: Global,
    out: &mut Vec<u8>,
    placed: &Placed,
    found: &[Landing],
) -> Result<(), AllocError>
    ensures { OnOk result (Adds out.old.items (flat_map (bar placed.now.line placed.now.cycle) found.now) out.new.items) }
{
    for each in found {
        push_bar(alloc, out, placed, each)?;
    }
    Ok(())
}

/// The rows of an instruction.
fn push_bars_by(alloc: Global, out: &mut Vec<u8>, placed: &Placed) -> Result<(), AllocError>
    ensures { OnOk result (Adds out.old.items (bars_by placed.now) out.new.items) }
{
    let found = landings_of(alloc, &[*placed])?;
    push_bars_of(alloc, out, placed, &found)
}

/// The rows of all instructions.
fn push_bars(alloc: Global, out: &mut Vec<u8>, placed: &[Placed]) -> Result<(), AllocError>
    ensures { OnOk result (Adds out.old.items (bars placed.now) out.new.items) }
{
    for each in placed {
        push_bars_by(alloc, out, each)?;
    }
    Ok(())
}

/// The table with its heading.
#[tactic(auto, unfolding(crate::specs::Flight::flight_table))]
fn push_table(
    alloc: Global,
    out: &mut Vec<u8>,
    cycles: u16,
    placed: &[Placed],
) -> Result<(), AllocError>
    ensures { OnOk result (Adds out.old.items (flight_table cycles placed.now) out.new.items) }
{
    push_number_in(out, FLIGHT_BEGIN, u64::from(cycles), "'><tbody>\n")?;
    push_bars(alloc, out, placed)?;
    push_own(out, TABLE_END)
}

/// The table, where anything is in flight.
pub(crate) fn push_flight(
    alloc: Global,
    out: &mut Vec<u8>,
    cycles: u16,
    placed: &[Placed],
) -> Result<(), AllocError>
    ensures { OnOk result (Adds out.old.items (flight_part cycles placed.now) out.new.items) }
{
    let landings = landings_of(alloc, placed)?;
    if landings.is_empty() {
        Ok(())
    } else {
        push_table(alloc, out, cycles, placed)
    }
}
