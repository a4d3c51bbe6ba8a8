//! The heads of a text's blocks alone.

ghost use Rattle.std.specs.Prelude.{◌≡◌, OnOk, IfOk, option_map, string_bytes};
ghost use Rattle.c62_show.specs.Limits.{least_of};
ghost use Rattle.c62_listing.specs.Written.{AddsText};
ghost use Rattle.c62_show.specs.Summary.{head_text, size_of, summary};

use crate::head::{push_name, push_size};
use crate::shown::{Shown, least_told};
use std::alloc::{AllocError, Global};

/// What stands behind the name of a block.
///
/// # Errors
///
/// Where memory ran out.
pub fn push_size_of(out: &mut String, shown: &Shown) -> Result<(), AllocError>
    ensures { OnOk result (AddsText out.old (size_of shown.now shown.now.packets.placed) out.new) }
{
    if shown.packets.placed().is_empty() {
        return out.push_str(": no instruction\n");
    }
    push_size(
        out,
        shown.packets.placed().len() as u64,
        u64::from(shown.packets.length()),
        least_told(&shown.limits),
    )
}

/// The head of a block.
#[tactic(auto, unfolding(crate::specs::Summary::head_text))]
fn push_head(out: &mut String, number: u64, shown: &Shown) -> Result<(), AllocError>
    ensures { OnOk result (AddsText out.old (head_text number shown.now) out.new) }
{
    push_name(out, number, shown.packets.label())?;
    push_size_of(out, shown)
}

/// The heads of these blocks, in their order, a line each: how long a block is, and whether it could be shorter.
///
/// # Errors
///
/// Where memory ran out.
pub fn summary(alloc: Global, shown: &[Shown]) -> Result<String, AllocError>
    ensures { IfOk result (λ text. string_bytes text ≡ summary shown.now) }
{
    let mut out = String::new(alloc);
    let mut number = 0;
    for each in shown {
        push_head(&mut out, number, each)?;
        number += 1;
    }
    Ok(out)
}
