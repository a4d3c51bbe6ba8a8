//! The picture of a text's blocks.

ghost use Rattle.std.specs.Prelude.{◌≡◌, ◌<◌, length, OnOk, IfOk, option_map, string_bytes};
ghost use Rattle.c62_show.specs.Limits.{least_of};
ghost use Rattle.c62_listing.specs.Written.{AddsText};
ghost use Rattle.c62_show.specs.Picture.{block_rows, block_text, gap, limit_lines, picture, widths_of};
ghost use Rattle.c62_grid.specs.Widths.{widths_with};

use crate::head::{push_name, push_path, push_size, push_units};
use crate::limits::Limits;
use crate::registers::push_registers;
use crate::whys::push_whys;
use c62_grid::{Grid, Widths, landings_of};
use c62_live::Lives;
use c62_packet::{PacketBlock, Placed};
use c62_why::Why;
use std::alloc::{AllocError, Global};

/// A block that is shown.
#[derive(Drop)]
pub struct Shown {
    /// How short its packets could be at best, where that is known.
    pub limits: Option<Limits>,
    pub packets: PacketBlock,
    /// The lines that are marked: of the instructions without slack, where that is known.
    pub critical: Vec<u32>,
    /// Why each of its instructions isn't issued a cycle earlier; empty where that isn't asked for.
    pub whys: Vec<Why>,
    /// Its registers, where they are asked for.
    pub lives: Option<Lives>,
}

/// Room for these instructions too.
fn widths_with(widths: Widths, placed: &[Placed]) -> Widths
    ensures { result ≡ widths_with widths placed.now }
{
    let mut widths = widths;
    for each in placed {
        widths = widths.with(each);
    }
    widths
}

/// Room for the instructions of all blocks.
fn widths_of(shown: &[Shown]) -> Widths
    ensures { result ≡ widths_of shown.now }
{
    let mut widths = Widths::least();
    for each in shown {
        widths = widths_with(widths, each.packets.placed());
    }
    widths
}

/// How many cycles each schedule of a block takes at least, where that is known.
pub(crate) fn least_told(limits: &Option<Limits>) -> Option<u64>
    ensures { result ≡ option_map least_of limits.now }
{
    match limits {
        Some(limits) => Some(u64::from(limits.least())),
        None => None,
    }
}

/// Why each schedule of a block takes so many cycles, where that is known.
///
/// # Errors
///
/// Where memory ran out.
pub fn push_limits(
    alloc: Global,
    out: &mut String,
    limits: &Option<Limits>,
) -> Result<(), AllocError>
    ensures { OnOk result (AddsText out.old (limit_lines limits.now) out.new) }
{
    match limits {
        Some(limits) => {
            push_path(alloc, out, limits)?;
            push_units(alloc, out, limits.need)
        }
        None => Ok(()),
    }
}

/// What is told of a block that has instructions, behind its name.
#[tactic(auto, unfolding(crate::specs::Picture::block_rows))]
fn push_rows(
    alloc: Global,
    out: &mut String,
    widths: Widths,
    shown: &Shown,
) -> Result<(), AllocError>
    requires { 0 < length shown.now.packets.placed }
    ensures { OnOk result (AddsText out.old (block_rows widths shown.now) out.new) }
{
    let placed = shown.packets.placed();
    let cycles = u32::from(shown.packets.length());
    push_size(
        out,
        placed.len() as u64,
        u64::from(cycles),
        least_told(&shown.limits),
    )?;
    push_limits(alloc, out, &shown.limits)?;
    let landings = landings_of(alloc, placed)?;
    let grid = Grid {
        widths,
        path: &shown.critical,
        cycles,
        placed,
        landings: &landings,
    };
    grid.push(alloc, out)?;
    push_whys(out, &shown.whys)?;
    push_registers(out, &shown.lives)
}

/// A block.
#[tactic(auto, unfolding(crate::specs::Picture::block_text))]
fn push_block(
    alloc: Global,
    out: &mut String,
    widths: Widths,
    number: u64,
    shown: &Shown,
) -> Result<(), AllocError>
    ensures { OnOk result (AddsText out.old (block_text widths number shown.now) out.new) }
{
    push_name(out, number, shown.packets.label())?;
    if shown.packets.placed().is_empty() {
        return out.push_str(": no instruction\n");
    }
    push_rows(alloc, out, widths, shown)
}

/// The empty line before each block but the first.
fn push_gap(out: &mut String, number: u64) -> Result<(), AllocError>
    ensures { OnOk result (AddsText out.old (gap number) out.new) }
{
    if number == 0 {
        Ok(())
    } else {
        out.push_str("\n")
    }
}

/// The picture of these blocks, in their order, with an empty line between two of them.
///
/// # Errors
///
/// Where memory ran out.
pub fn picture(alloc: Global, shown: &[Shown]) -> Result<String, AllocError>
    ensures { IfOk result (λ text. string_bytes text ≡ picture shown.now) }
{
    let widths = widths_of(shown);
    let mut out = String::new(alloc);
    let mut number = 0;
    for each in shown {
        push_gap(&mut out, number)?;
        push_block(alloc, &mut out, widths, number, each)?;
        number += 1;
    }
    Ok(out)
}
