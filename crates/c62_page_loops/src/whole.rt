//! The page of pipelined loops.

ghost use Rattle.std.specs.Prelude.{◌≡◌, IfOk, OnOk, slice_get, string_bytes};
ghost use Rattle.c62_markup.specs.Page.{Adds};
ghost use Rattle.c62_pipeline.specs.Lines.{choice_line, name_in};
ghost use Rattle.c62_page_loops.specs.Page.{links_from, loop_head, loop_link, loop_part, loops_from, loops_page_of, loops_page_pieces, page_head};

use crate::frame::{LOOP_ID, STAGES, TO_LOOP};
use crate::kernel::push_made;
use crate::text::push_text_part;
use c62_markup::{push_number_in, push_own, push_own_in, push_text_in};
use c62_page::frame::{BLOCKS_END, BLOCKS_HEAD, PAGE_BEGIN, PAGE_END, PAGE_HEAD, TEXT_HEAD};
use c62_page::tags::SECTION_END;
use c62_page::{SCRIPT, STYLE};
use c62_pipeline::{Choice, Pipelining, push_choice, push_name_at};
use c62_read::Block;
use std::alloc::{AllocError, Global};

/// The name of the loop that the block of this number is.
fn name_at(alloc: Global, blocks: &[Block], number: u8) -> Result<String, AllocError>
    ensures { IfOk result (λ text. string_bytes text ≡ name_in number (slice_get blocks.now number)) }
{
    let mut text = String::new(alloc);
    push_name_at(&mut text, blocks, number)?;
    Ok(text)
}

/// What became of a loop, as a line.
fn choice_line(alloc: Global, blocks: &[Block], choice: &Choice) -> Result<String, AllocError>
    ensures { IfOk result (λ text. string_bytes text ≡ choice_line blocks.now choice.now) }
{
    let mut text = String::new(alloc);
    push_choice(&mut text, blocks, choice)?;
    Ok(text)
}

/// What became of a loop.
#[tactic(auto, unfolding(crate::specs::Page::loop_head))]
fn push_loop_head(
    alloc: Global,
    out: &mut Vec<u8>,
    blocks: &[Block],
    number: u64,
    choice: &Choice,
) -> Result<(), AllocError>
    ensures { OnOk result (Adds out.old.items (loop_head blocks.now number choice.now) out.new.items) }
{
    let line = choice_line(alloc, blocks, choice)?;
    push_number_in(out, LOOP_ID, number, "'><h2>")?;
    push_text_in(out, "", line.as_bytes(), "</h2>\n")
}

/// A loop.
#[tactic(auto, unfolding(crate::specs::Page::loop_part))]
fn push_loop(
    alloc: Global,
    out: &mut Vec<u8>,
    blocks: &[Block],
    number: u64,
    choice: &Choice,
) -> Result<(), AllocError>
    ensures { OnOk result (Adds out.old.items (loop_part blocks.now number choice.now) out.new.items) }
{
    push_loop_head(alloc, out, blocks, number, choice)?;
    push_made(alloc, out, &choice.made)?;
    push_own(out, SECTION_END)
}

/// All loops, in their order.
fn push_loops(
    alloc: Global,
    out: &mut Vec<u8>,
    blocks: &[Block],
    written: &Pipelining,
) -> Result<(), AllocError>
    ensures { OnOk result (Adds out.old.items (loops_from blocks.now 0 written.now.loops.items) out.new.items) }
{
    let mut number = 0;
    for choice in &written.loops {
        push_loop(alloc, out, blocks, number, choice)?;
        number += 1;
    }
    Ok(())
}

/// A link to a loop.
#[tactic(auto, unfolding(crate::specs::Page::loop_link))]
fn push_link(
    alloc: Global,
    out: &mut Vec<u8>,
    blocks: &[Block],
    number: u64,
    choice: &Choice,
) -> Result<(), AllocError>
    ensures { OnOk result (Adds out.old.items (loop_link blocks.now number choice.now) out.new.items) }
{
    let name = name_at(alloc, blocks, choice.number)?;
    push_number_in(out, TO_LOOP, number, "'>")?;
    push_text_in(out, "", name.as_bytes(), "</a>\n")
}

/// A link to each loop.
fn push_links(
    alloc: Global,
    out: &mut Vec<u8>,
    blocks: &[Block],
    loops: &[Choice],
) -> Result<(), AllocError>
    ensures { OnOk result (Adds out.old.items (links_from blocks.now 0 loops.now) out.new.items) }
{
    let mut number = 0;
    for choice in loops {
        push_link(alloc, out, blocks, number, choice)?;
        number += 1;
    }
    Ok(())
}

/// What stands before the text.
#[tactic(auto, unfolding(crate::specs::Page::page_head))]
fn push_head(
    alloc: Global,
    out: &mut Vec<u8>,
    blocks: &[Block],
    written: &Pipelining,
) -> Result<(), AllocError>
    ensures { OnOk result (Adds out.old.items (page_head blocks.now written.now) out.new.items) }
{
    push_own_in(out, PAGE_BEGIN, STYLE, STAGES)?;
    push_own(out, PAGE_HEAD)?;
    push_links(alloc, out, blocks, &written.loops)?;
    push_own(out, TEXT_HEAD)
}

/// All of the page.
#[tactic(auto, unfolding(crate::specs::Page::loops_page_pieces))]
fn push_page(
    alloc: Global,
    out: &mut Vec<u8>,
    text: &[u8],
    blocks: &[Block],
    written: &Pipelining,
) -> Result<(), AllocError>
    ensures { OnOk result (Adds out.old.items (loops_page_pieces text.now blocks.now written.now) out.new.items) }
{
    push_head(alloc, out, blocks, written)?;
    push_text_part(out, text, written)?;
    push_own(out, BLOCKS_HEAD)?;
    push_loops(alloc, out, blocks, written)?;
    push_own_in(out, BLOCKS_END, SCRIPT, PAGE_END)
}

/// The page of what became of each of these blocks that is a loop, and of the kernels of those that are pipelined, beside the
/// lines of their text (docs/PAGE.md).
///
/// # Errors
///
/// `AllocError` where memory ran out.
pub fn loops_page(
    alloc: Global,
    text: &[u8],
    blocks: &[Block],
    written: &Pipelining,
) -> Result<Vec<u8>, AllocError>
    ensures { IfOk result (λ bytes. bytes.items ≡ loops_page_of text.now blocks.now written.now) }
{
    let mut out = Vec::new(alloc);
    push_page(alloc, &mut out, text, blocks, written)?;
    Ok(out)
}
