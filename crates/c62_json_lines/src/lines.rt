//! The lines of a text, as a document.

ghost use Rattle.std.specs.Prelude.{◌≡◌, [], ◌∷◌, ◌++◌, IfOk, codes, map};
ghost use Rattle.json.specs.Token.{begin_array, end_array, key};
ghost use Rattle.c62_json.specs.Document.{Adds, array, text};
ghost use Rattle.c62_json_lines.specs.Lines.{line_values, lines_document};

use c62_json::{begin, end, push_name, push_text};
use c62_read::first_line;
use json::Writer;
use std::alloc::{AllocError, Global};

/// The lines of a text, without their ends.
fn push_lines(alloc: Global, out: &mut Writer, bytes: &[u8]) -> Result<(), AllocError>
    ensures { Adds result out.old out.new (line_values bytes.now) }
{
    let mut rest = bytes;
    while let Some((line, after)) = first_line(rest) {
        push_text(alloc, out, line)?;
        rest = after;
    }
    Ok(())
}

/// The document of a command that tells a text line by line: its member `lines` has them, without their ends.
///
/// # Errors
///
/// `AllocError` where memory ran out.
#[tactic(auto, using(crate::proofs::Whole::whole))]
pub fn lines_document(alloc: Global, command: &str, bytes: &[u8]) -> Result<Vec<u8>, AllocError>
    ensures { IfOk result (λ made. made.items ≡ lines_document command.now bytes.now) }
{
    let mut out = begin(alloc, command)?;
    push_name(&mut out, "lines")?;
    out.begin_array()?;
    push_lines(alloc, &mut out, bytes)?;
    out.end_array()?;
    end(out)
}
