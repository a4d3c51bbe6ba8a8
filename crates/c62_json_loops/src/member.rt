//! Members that are numbers.

ghost use Rattle.std.specs.Prelude.{◌≡◌, [], ◌∷◌};
ghost use Rattle.std.specs.Fmt.{signed_decimal};
ghost use Rattle.json.specs.Token.{key, number};
ghost use Rattle.c62_json.specs.Document.{Adds, count};
ghost use Rattle.c62_json_loops.specs.Loops.{number_value};

use c62_json::{push_count, push_missing, push_signed};
use json::Writer;
use std::alloc::AllocError;

/// A member that is a number.
pub(crate) fn push_number(out: &mut Writer, name: &str, value: u64) -> Result<(), AllocError>
    ensures { Adds result out.old out.new (key name.now ∷ count value ∷ []) }
{
    out.key(name)?;
    push_count(out, value)
}

/// A member that is a number which may be less than 0.
pub(crate) fn push_cycles(out: &mut Writer, name: &str, cycles: i64) -> Result<(), AllocError>
    ensures { Adds result out.old out.new (key name.now ∷ number (signed_decimal cycles) ∷ []) }
{
    out.key(name)?;
    push_signed(out, cycles)
}

/// A member that is a number, where there is one.
#[tactic(auto, unfolding(crate::specs::Loops::number_value))]
pub(crate) fn push_maybe(out: &mut Writer, name: &str, value: Option<u64>) -> Result<(), AllocError>
    ensures { Adds result out.old out.new (key name.now ∷ number_value value ∷ []) }
{
    out.key(name)?;
    match value {
        Some(value) => push_count(out, value),
        None => push_missing(out),
    }
}
