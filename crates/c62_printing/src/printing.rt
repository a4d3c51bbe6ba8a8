//! Memory that settings ask to print.

ghost use Rattle.std.specs.Prelude.{◌≡◌, ◌++◌, OnOk};
ghost use Rattle.std.specs.List.{flat_map};
ghost use Rattle.c62_command.specs.Settings.{bytes_in};
ghost use Rattle.c62_printing.specs.Printing.{printed, prints};

use c62_command::Setting;
use c62_report::push_print;
use c62_serial::State;
use std::alloc::AllocError;

/// Adds the lines that a setting asks for.
fn push_printed(out: &mut Vec<u8>, state: &State, setting: Setting) -> Result<(), AllocError>
    ensures { OnOk result (out.new.items ≡ out.old.items ++ printed state.now.machine setting) }
{
    match setting {
        Setting::Print(print) => push_print(
            out,
            state,
            print.place,
            print.count,
            print.size.bytes(),
            print.signed,
        ),
        Setting::Register(_, _)
        | Setting::Byte(_, _)
        | Setting::Half(_, _)
        | Setting::Word(_, _)
        | Setting::Dump(_)
        | Setting::Base(_) => Ok(()),
    }
}

/// Adds the lines of memory that settings ask for, in their order.
///
/// # Errors
///
/// `AllocError` where memory ran out.
pub fn push_prints(out: &mut Vec<u8>, state: &State, settings: &[Setting]) -> Result<(), AllocError>
    ensures { OnOk result (out.new.items ≡ out.old.items ++ prints state.now.machine settings.now) }
{
    for setting in settings {
        push_printed(out, state, *setting)?;
    }
    Ok(())
}
