//! Brackets of objects and arrays, and members whose values are numbers.

ghost use Rattle.std.specs.Prelude.{◌∷◌, []};
ghost use Rattle.json.specs.Token.{begin_array, begin_object, end_array, end_object, key};
ghost use Rattle.c62_json.specs.Document.{Adds, count};

use c62_json::{push_count, push_name};
use json::Writer;
use std::alloc::AllocError;

/// An object begins.
pub(crate) fn open_object(out: &mut Writer) -> Result<(), AllocError>
    ensures { Adds result out.old out.new (begin_object ∷ []) }
{
    out.begin_object()
}

/// It ends.
pub(crate) fn close_object(out: &mut Writer) -> Result<(), AllocError>
    ensures { Adds result out.old out.new (end_object ∷ []) }
{
    out.end_object()
}

/// An array begins.
pub(crate) fn open_array(out: &mut Writer) -> Result<(), AllocError>
    ensures { Adds result out.old out.new (begin_array ∷ []) }
{
    out.begin_array()
}

/// It ends.
pub(crate) fn close_array(out: &mut Writer) -> Result<(), AllocError>
    ensures { Adds result out.old out.new (end_array ∷ []) }
{
    out.end_array()
}

/// A member whose value is a number.
pub(crate) fn push_number(out: &mut Writer, name: &str, number: u64) -> Result<(), AllocError>
    ensures { Adds result out.old out.new (key name.now ∷ count number ∷ []) }
{
    push_name(out, name)?;
    push_count(out, number)
}
