//! A block of the page.

ghost use Rattle.std.specs.Prelude.{◌≡◌, ◌<◌, OnOk, length};
ghost use Rattle.c62_markup.specs.Page.{Adds};
ghost use Rattle.c62_page.specs.Block.{block_head, block_part, block_rows, blocks_from, lines_part, rows_of};

use crate::causes::push_causes;
use crate::flight::push_flight;
use crate::grid::push_grid;
use crate::tags::{SECTION_END, SECTION_ID};
use crate::words::{limit_lines, name, register_lines, size_of};
use c62_markup::{push_number_in, push_own, push_text_in};
use c62_show::Shown;
use std::alloc::{AllocError, Global};

/// Lines as a picture has them, where there are any.
fn push_lines(out: &mut Vec<u8>, lines: &[u8]) -> Result<(), AllocError>
    ensures { OnOk result (Adds out.old.items (lines_part lines.now) out.new.items) }
{
    if lines.is_empty() {
        Ok(())
    } else {
        push_text_in(out, "<pre>", lines, "</pre>\n")
    }
}

/// The head of a block.
#[tactic(auto, unfolding(crate::specs::Block::block_head))]
fn push_head(alloc: Global, out: &mut Vec<u8>, number: u64, shown: &Shown) -> Result<(), AllocError>
    ensures { OnOk result (Adds out.old.items (block_head number shown.now) out.new.items) }
{
    let name = name(alloc, number, shown.packets.label())?;
    let size = size_of(alloc, shown)?;
    push_number_in(out, SECTION_ID, number, "'><h2>")?;
    push_text_in(out, "<b>", name.as_bytes(), "</b>")?;
    push_text_in(out, "", size.as_bytes(), "</h2>\n")
}

/// What is told of a block that has instructions.
#[tactic(auto, unfolding(crate::specs::Block::block_rows))]
fn push_rows(alloc: Global, out: &mut Vec<u8>, shown: &Shown) -> Result<(), AllocError>
    ensures { OnOk result (Adds out.old.items (block_rows shown.now) out.new.items) }
{
    let placed = shown.packets.placed();
    let cycles = shown.packets.length();
    let limits = limit_lines(alloc, &shown.limits)?;
    let registers = register_lines(alloc, &shown.lives)?;
    push_lines(out, limits.as_bytes())?;
    push_grid(alloc, out, &shown.critical, cycles, placed)?;
    push_flight(alloc, out, cycles, placed)?;
    push_causes(alloc, out, &shown.whys)?;
    push_lines(out, registers.as_bytes())
}

/// The same, or nothing of a block without instructions.
fn push_rows_of(alloc: Global, out: &mut Vec<u8>, shown: &Shown) -> Result<(), AllocError>
    ensures { OnOk result (Adds out.old.items (rows_of shown.now shown.now.packets.placed) out.new.items) }
{
    if shown.packets.placed().is_empty() {
        Ok(())
    } else {
        push_rows(alloc, out, shown)
    }
}

/// A block.
#[tactic(auto, unfolding(crate::specs::Block::block_part))]
fn push_block(
    alloc: Global,
    out: &mut Vec<u8>,
    number: u64,
    shown: &Shown,
) -> Result<(), AllocError>
    ensures { OnOk result (Adds out.old.items (block_part number shown.now) out.new.items) }
{
    push_head(alloc, out, number, shown)?;
    push_rows_of(alloc, out, shown)?;
    push_own(out, SECTION_END)
}

/// All blocks, in their order.
pub(crate) fn push_blocks(
    alloc: Global,
    out: &mut Vec<u8>,
    shown: &[Shown],
) -> Result<(), AllocError>
    ensures { OnOk result (Adds out.old.items (blocks_from 0 shown.now) out.new.items) }
{
    let mut number = 0;
    for each in shown {
        push_block(alloc, out, number, each)?;
        number += 1;
    }
    Ok(())
}
