//! Members with their values.

ghost use Rattle.std.specs.Prelude.{[], ◌∷◌};
ghost use Rattle.json.specs.Token.{key, begin_array, begin_object};
ghost use Rattle.c62_json.specs.Document.{Adds};
ghost use Rattle.c62_json_packets.specs.Member.{number_member, signed_member, text_member, null_member};

use c62_json::push_count;
use json::Writer;
use std::alloc::AllocError;

/// Writes a member whose value is a number.
///
/// # Errors
///
/// `AllocError` where memory ran out.
#[tactic(auto, unfolding(crate::specs::Member::number_member))]
pub fn push_number(out: &mut Writer, name: &str, number: u64) -> Result<(), AllocError>
    ensures { Adds result out.old out.new (number_member name.now number) }
{
    out.key(name)?;
    push_count(out, number)
}

/// Writes a member whose value is a number with its sign.
///
/// # Errors
///
/// `AllocError` where memory ran out.
#[tactic(auto, unfolding(crate::specs::Member::signed_member))]
pub fn push_signed(out: &mut Writer, name: &str, value: i64) -> Result<(), AllocError>
    ensures { Adds result out.old out.new (signed_member name.now value) }
{
    out.key(name)?;
    c62_json::push_signed(out, value)
}

/// Writes a member whose value is a text.
///
/// # Errors
///
/// `AllocError` where memory ran out.
#[tactic(auto, unfolding(crate::specs::Member::text_member))]
pub fn push_string(out: &mut Writer, name: &str, text: &str) -> Result<(), AllocError>
    ensures { Adds result out.old out.new (text_member name.now text.now) }
{
    out.key(name)?;
    out.string(text)
}

/// Writes a member of which there is nothing to tell.
///
/// # Errors
///
/// `AllocError` where memory ran out.
#[tactic(auto, unfolding(crate::specs::Member::null_member))]
pub fn push_null(out: &mut Writer, name: &str) -> Result<(), AllocError>
    ensures { Adds result out.old out.new (null_member name.now) }
{
    out.key(name)?;
    out.null()
}

/// Begins a member whose value is an array.
///
/// # Errors
///
/// `AllocError` where memory ran out.
pub fn begin_array(out: &mut Writer, name: &str) -> Result<(), AllocError>
    ensures { Adds result out.old out.new (key name.now ∷ begin_array ∷ []) }
{
    out.key(name)?;
    out.begin_array()
}

/// Begins a member whose value is an object.
///
/// # Errors
///
/// `AllocError` where memory ran out.
pub fn begin_object(out: &mut Writer, name: &str) -> Result<(), AllocError>
    ensures { Adds result out.old out.new (key name.now ∷ begin_object ∷ []) }
{
    out.key(name)?;
    out.begin_object()
}
