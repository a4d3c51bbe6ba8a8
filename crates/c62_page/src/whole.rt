//! The page of blocks that are shown.

ghost use Rattle.std.specs.Prelude.{◌≡◌, IfOk, OnOk};
ghost use Rattle.c62_markup.specs.Page.{Adds};
ghost use Rattle.c62_page.specs.Page.{block_link, links_from, page_head, page_of, page_pieces};

use crate::block::push_blocks;
use crate::frame::{BLOCKS_END, BLOCKS_HEAD, PAGE_BEGIN, PAGE_END, PAGE_HEAD, TEXT_HEAD};
use crate::script::SCRIPT;
use crate::style::STYLE;
use crate::tags::TO_BLOCK;
use crate::text::push_text_part;
use crate::words::name;
use c62_markup::{push_number_in, push_own, push_own_in, push_text_in};
use c62_show::Shown;
use std::alloc::{AllocError, Global};

/// A link to a block.
#[tactic(auto, unfolding(crate::specs::Page::block_link))]
fn push_link(alloc: Global, out: &mut Vec<u8>, number: u64, shown: &Shown) -> Result<(), AllocError>
    ensures { OnOk result (Adds out.old.items (block_link number shown.now) out.new.items) }
{
    let name = name(alloc, number, shown.packets.label())?;
    push_number_in(out, TO_BLOCK, number, "'>")?;
    push_text_in(out, "", name.as_bytes(), "</a>\n")
}

/// A link to each block.
fn push_links(alloc: Global, out: &mut Vec<u8>, shown: &[Shown]) -> Result<(), AllocError>
    ensures { OnOk result (Adds out.old.items (links_from 0 shown.now) out.new.items) }
{
    let mut number = 0;
    for each in shown {
        push_link(alloc, out, number, each)?;
        number += 1;
    }
    Ok(())
}

/// What stands before the text.
#[tactic(auto, unfolding(crate::specs::Page::page_head))]
fn push_head(alloc: Global, out: &mut Vec<u8>, shown: &[Shown]) -> Result<(), AllocError>
    ensures { OnOk result (Adds out.old.items (page_head shown.now) out.new.items) }
{
    push_own_in(out, PAGE_BEGIN, STYLE, PAGE_HEAD)?;
    push_links(alloc, out, shown)?;
    push_own(out, TEXT_HEAD)
}

/// All of the page.
#[tactic(auto, unfolding(crate::specs::Page::page_pieces))]
fn push_page(
    alloc: Global,
    out: &mut Vec<u8>,
    text: &[u8],
    shown: &[Shown],
) -> Result<(), AllocError>
    ensures { OnOk result (Adds out.old.items (page_pieces text.now shown.now) out.new.items) }
{
    push_head(alloc, out, shown)?;
    push_text_part(out, text, shown)?;
    push_own(out, BLOCKS_HEAD)?;
    push_blocks(alloc, out, shown)?;
    push_own_in(out, BLOCKS_END, SCRIPT, PAGE_END)
}

/// The page of blocks that are shown, beside the lines of their text: one document, which has its style sheet and its script in
/// it (docs/PAGE.md).
///
/// # Errors
///
/// `AllocError` where memory ran out.
pub fn page(alloc: Global, text: &[u8], shown: &[Shown]) -> Result<Vec<u8>, AllocError>
    ensures { IfOk result (λ bytes. bytes.items ≡ page_of text.now shown.now) }
{
    let mut out = Vec::new(alloc);
    push_page(alloc, &mut out, text, shown)?;
    Ok(out)
}
