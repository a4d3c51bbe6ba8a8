//! How a document begins and ends.

ghost use Rattle.std.specs.Prelude.{◌≡◌, [], ◌∷◌, ◌++◌, IfOk, codes};
ghost use Rattle.json.specs.Token.{end_object};
ghost use Rattle.json.specs.Print.{print};
ghost use Rattle.c62_json.specs.Document.{head};

use crate::version::VERSION;
use json::Writer;
use std::alloc::{AllocError, Global};

/// Begins the document of a command: its members `c62`, which is the version, and `command`.
///
/// # Errors
///
/// `AllocError` where memory ran out.
pub fn begin(alloc: Global, command: &str) -> Result<Writer, AllocError>
    ensures before { IfOk result (λ out. out.before ≡ []) }
    ensures tokens { IfOk result (λ out. out.tokens ≡ head command.now) }
{
    let mut out = Writer::new(Vec::new(alloc));
    out.begin_object()?;
    out.key("c62")?;
    out.string(VERSION)?;
    out.key("command")?;
    out.string(command)?;
    Ok(out)
}

/// Ends a document, and answers its text, of one line.
///
/// # Errors
///
/// `AllocError` where memory ran out.
pub fn end(out: Writer) -> Result<Vec<u8>, AllocError>
    ensures { IfOk result (λ text. text.items ≡ out.before ++ print (out.tokens ++ end_object ∷ []) ++ codes "\n") }
{
    let mut out = out;
    out.end_object()?;
    let mut text = out.into_inner();
    text.push(b'\n')?;
    Ok(text)
}
