//! Text in a page: what would mean something there stands as a character reference.

ghost use Rattle.std.specs.Prelude.{◌≡◌, ◌++◌, OnOk};
ghost use Rattle.c62_markup.specs.Escape.{escaped, escaped_byte};

use std::alloc::AllocError;

/// Adds a byte of a text.
fn push_byte(out: &mut Vec<u8>, byte: u8) -> Result<(), AllocError>
    ensures { OnOk result (out.new.items ≡ out.old.items ++ escaped_byte byte) }
{
    match byte {
        b'<' => out.extend_from_slice(b"&lt;"),
        b'>' => out.extend_from_slice(b"&gt;"),
        b'&' => out.extend_from_slice(b"&amp;"),
        b'"' => out.extend_from_slice(b"&quot;"),
        b'\'' => out.extend_from_slice(b"&#39;"),
        _ => Ok(out.push(byte)?),
    }
}

/// Adds a text, whatever is in it, so that a page shows it: between the tags of an element, or within the quotes of an attribute.
///
/// # Errors
///
/// `AllocError` where memory ran out.
pub(crate) fn push_escaped(out: &mut Vec<u8>, text: &[u8]) -> Result<(), AllocError>
    ensures { OnOk result (out.new.items ≡ out.old.items ++ escaped text.now) }
{
    for byte in text {
        push_byte(out, *byte)?;
    }
    Ok(())
}
