//! Puts a text and a listing that are two files onto the one stream that a check reads (docs/CHECK.md, "Input").

ghost use Rattle.std.specs.Prelude.{◌≡◌, ◌++◌, IfOk, codes};
ghost use Rattle.c62_program.specs.Joined.{IsJoined, end_behind, line_end};

use c62_answer::parts_of;
use std::alloc::{AllocError, Global};

/// What ends a line that ends in this byte, where nothing does. A carriage return alone is no end of a line, and stays none.
fn end_behind(last: Option<u8>) -> &'static [u8]
    ensures { result.now ≡ end_behind last }
{
    match last {
        None | Some(b'\n') => b"",
        Some(b'\r') => b"\r\n",
        Some(_) => b"\n",
    }
}

/// What ends the last line of a text, where nothing does.
fn line_end(text: &[u8]) -> &'static [u8]
    ensures { result.now ≡ line_end text.now }
{
    end_behind(text.last().copied())
}

/// A whole text, a line `---` and a listing.
fn whole(alloc: Global, text: &[u8], listing: &[u8]) -> Result<Vec<u8>, AllocError>
    ensures { IfOk result (λ input. input.items ≡ text.now ++ line_end text.now ++ codes "---\n" ++ listing.now) }
{
    let mut input = Vec::new(alloc);
    input.extend_from_slice(text)?;
    input.extend_from_slice(line_end(text))?;
    input.extend_from_slice(b"---\n")?;
    input.extend_from_slice(listing)?;
    Ok(input)
}

/// The front of a text, a line `-- `, a line `---` and a listing.
fn cut(alloc: Global, front: &[u8], listing: &[u8]) -> Result<Vec<u8>, AllocError>
    ensures { IfOk result (λ input. input.items ≡ front.now ++ codes "-- \n---\n" ++ listing.now) }
{
    let mut input = Vec::new(alloc);
    input.extend_from_slice(front)?;
    input.extend_from_slice(b"-- \n---\n")?;
    input.extend_from_slice(listing)?;
    Ok(input)
}

/// The text, a line `---` and the listing. A line `---` of the text parts nothing: it is written `-- `, which is refused for the
/// same reason, and what stands behind it is left out.
pub fn joined(alloc: Global, text: &[u8], listing: &[u8]) -> Result<Vec<u8>, AllocError>
    ensures { IfOk result (λ input. IsJoined text.now listing.now input.items) }
{
    match parts_of(text) {
        Some(parts) => Ok(cut(alloc, parts.text, listing)?),
        None => Ok(whole(alloc, text, listing)?),
    }
}
