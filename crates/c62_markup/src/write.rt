//! The pieces of a page, one behind the other.

ghost use Rattle.std.specs.Prelude.{◌≡◌, [], ◌∷◌, ◌++◌, OnOk};
ghost use Rattle.c62_markup.specs.Page.{Adds, number_in, own_in, own_piece, text_in, text_piece};

use crate::escape::push_escaped;
use itoa::Buffer;
use std::alloc::AllocError;

/// Adds what the page's maker writes.
///
/// # Errors
///
/// `AllocError` where memory ran out.
pub fn push_own(out: &mut Vec<u8>, bytes: &str) -> Result<(), AllocError>
    ensures { OnOk result (Adds out.old.items (own_piece bytes.now) out.new.items) }
{
    out.extend_from_slice(bytes.as_bytes())
}

/// Adds a text that comes from elsewhere.
///
/// # Errors
///
/// `AllocError` where memory ran out.
pub fn push_text(out: &mut Vec<u8>, text: &[u8]) -> Result<(), AllocError>
    ensures { OnOk result (Adds out.old.items (text_piece text.now) out.new.items) }
{
    push_escaped(out, text)
}

/// Adds three pieces of the page's maker.
///
/// # Errors
///
/// `AllocError` where memory ran out.
#[tactic(auto, unfolding(crate::specs::Page::own_in))]
pub fn push_own_in(
    out: &mut Vec<u8>,
    before: &str,
    bytes: &str,
    behind: &str,
) -> Result<(), AllocError>
    ensures { OnOk result (Adds out.old.items (own_in before.now bytes.now behind.now) out.new.items) }
{
    push_own(out, before)?;
    push_own(out, bytes)?;
    push_own(out, behind)
}

/// Adds a number in decimal, between two pieces of the page's maker.
///
/// # Errors
///
/// `AllocError` where memory ran out.
pub fn push_number_in(
    out: &mut Vec<u8>,
    before: &str,
    number: u64,
    behind: &str,
) -> Result<(), AllocError>
    ensures { OnOk result (Adds out.old.items (number_in before.now number behind.now) out.new.items) }
{
    let mut buffer = Buffer::new();
    push_own_in(out, before, buffer.format(number), behind)
}

/// Adds a text that comes from elsewhere, between two pieces of the page's maker.
///
/// # Errors
///
/// `AllocError` where memory ran out.
#[tactic(auto, unfolding(crate::specs::Page::text_in))]
pub fn push_text_in(
    out: &mut Vec<u8>,
    before: &str,
    text: &[u8],
    behind: &str,
) -> Result<(), AllocError>
    ensures { OnOk result (Adds out.old.items (text_in before.now text.now behind.now) out.new.items) }
{
    push_own(out, before)?;
    push_text(out, text)?;
    push_own(out, behind)
}
