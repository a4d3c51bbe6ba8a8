//! Memory that settings ask to print (docs/JSON.md, "Prints").

ghost use Rattle.std.specs.Prelude.{◌≡◌, ◌∷◌, [], IsTrue};
ghost use Rattle.std.specs.List.{flat_map};
ghost use Rattle.c62_serial.specs.Memory.{is_size};
ghost use Rattle.c62_command.specs.Settings.{bytes_in};
ghost use Rattle.c62_json.specs.Document.{Adds};
ghost use Rattle.c62_json_report.specs.Prints.{placed, printed, prints, value, value_of, values};

use crate::brackets::{close_array, close_object, open_array, open_object, push_number};
use c62_command::{Print, Setting};
use c62_json::{push_count, push_name, push_signed};
use c62_report::{signed_value, value_at};
use c62_serial::State;
use json::Writer;
use std::alloc::AllocError;

/// The low bytes of a value, so many of them, with their sign or without one.
fn push_value_of(out: &mut Writer, size: u8, signed: bool, value: u32) -> Result<(), AllocError>
    ensures { Adds result out.old out.new (value_of size signed value ∷ []) }
{
    if signed {
        push_signed(out, i64::from(signed_value(size, value)))
    } else {
        push_count(out, u64::from(value))
    }
}

/// Where a value lies, and how many bytes it has.
fn push_place(out: &mut Writer, state: &State, place: u32, size: u8) -> Result<(), AllocError>
    ensures { Adds result out.old out.new (placed state.now.machine size place) }
{
    push_number(out, "address", u64::from(state.base().wrapping_add(place)))?;
    push_number(out, "size", u64::from(size))
}

/// A value in memory, by its address.
fn push_value(
    out: &mut Writer,
    state: &State,
    place: u32,
    size: u8,
    signed: bool,
) -> Result<(), AllocError>
    requires { IsTrue (is_size size) }
    ensures { Adds result out.old out.new (value state.now.machine size signed place) }
{
    open_object(out)?;
    push_place(out, state, place, size)?;
    push_name(out, "value")?;
    push_value_of(out, size, signed, value_at(state, place, size))?;
    close_object(out)?;
    Ok(())
}

/// Values that are printed, one behind the other.
fn push_values(out: &mut Writer, state: &State, print: Print) -> Result<(), AllocError>
    ensures { Adds result out.old out.new (values state.now.machine (bytes_in print.size) print.signed print.count print.place) }
{
    let size = print.size.bytes();
    let mut place = print.place;
    let mut left = print.count;
    while left > 0 {
        push_value(out, state, place, size, print.signed)?;
        place = place.wrapping_add(u32::from(size));
        left -= 1;
    }
    Ok(())
}

/// The values that a setting asks for.
fn push_printed(out: &mut Writer, state: &State, setting: Setting) -> Result<(), AllocError>
    ensures { Adds result out.old out.new (printed state.now.machine setting) }
{
    match setting {
        Setting::Print(print) => push_values(out, state, print),
        Setting::Register(_, _)
        | Setting::Byte(_, _)
        | Setting::Half(_, _)
        | Setting::Word(_, _)
        | Setting::Dump(_)
        | Setting::Base(_) => Ok(()),
    }
}

/// The values that settings ask for, in their order.
fn push_all(out: &mut Writer, state: &State, settings: &[Setting]) -> Result<(), AllocError>
    ensures { Adds result out.old out.new (flat_map (printed state.now.machine) settings.now) }
{
    for setting in settings {
        push_printed(out, state, *setting)?;
    }
    Ok(())
}

/// An array of the values that settings ask for.
pub(crate) fn push_prints(
    out: &mut Writer,
    state: &State,
    settings: &[Setting],
) -> Result<(), AllocError>
    ensures { Adds result out.old out.new (prints state.now.machine settings.now) }
{
    open_array(out)?;
    push_all(out, state, settings)?;
    close_array(out)
}
