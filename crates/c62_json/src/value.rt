//! Members and values of a document.

ghost use Rattle.std.specs.Prelude.{◌≡◌, [], ◌∷◌, decimal, codes};
ghost use Rattle.std.specs.Fmt.{signed_decimal};
ghost use Rattle.json.specs.Token.{boolean, key, null, number, string};
ghost use Rattle.c62_json.specs.Document.{Adds, count, key_of, text};

use json::Writer;
use std::alloc::{AllocError, Global};
use std::str::from_utf8;

/// The name of a member.
pub fn push_name(out: &mut Writer, name: &str) -> Result<(), AllocError>
    ensures { Adds result out.old out.new (key name.now ∷ []) }
{
    out.key(name)
}

/// The name of a member, of bytes. What is no UTF-8 stands as U+FFFD.
#[tactic(auto, using(crate::proofs::Texts::stands))]
pub fn push_key(alloc: Global, out: &mut Writer, name: &[u8]) -> Result<(), AllocError>
    ensures { Adds result out.old out.new (key_of name.now ∷ []) }
{
    match from_utf8(name) {
        Ok(name) => out.key(name),
        Err(_) => out.key(String::from_utf8_lossy(alloc, name)?.as_str()),
    }
}

/// A text of bytes. What is no UTF-8 stands as U+FFFD.
#[tactic(auto, using(crate::proofs::Texts::stands))]
pub fn push_text(alloc: Global, out: &mut Writer, bytes: &[u8]) -> Result<(), AllocError>
    ensures { Adds result out.old out.new (text bytes.now ∷ []) }
{
    match from_utf8(bytes) {
        Ok(bytes) => out.string(bytes),
        Err(_) => out.string(String::from_utf8_lossy(alloc, bytes)?.as_str()),
    }
}

/// A number.
pub fn push_count(out: &mut Writer, number: u64) -> Result<(), AllocError>
    ensures { Adds result out.old out.new (count number ∷ []) }
{
    out.u64(number)
}

/// A number with its sign.
pub fn push_signed(out: &mut Writer, value: i64) -> Result<(), AllocError>
    ensures { Adds result out.old out.new (number (signed_decimal value) ∷ []) }
{
    out.i64(value)
}

/// Whether something is so.
pub fn push_flag(out: &mut Writer, flag: bool) -> Result<(), AllocError>
    ensures { Adds result out.old out.new (boolean flag ∷ []) }
{
    out.boolean(flag)
}

/// What isn't there, or wasn't asked for.
pub fn push_missing(out: &mut Writer) -> Result<(), AllocError>
    ensures { Adds result out.old out.new (null ∷ []) }
{
    out.null()
}
