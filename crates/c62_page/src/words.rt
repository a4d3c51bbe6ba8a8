//! Words of a picture that stand in the page too.

ghost use Rattle.std.specs.Prelude.{◌≡◌, IfOk, string_bytes};
ghost use Rattle.std.specs.List.{flat_map};
ghost use Rattle.std.specs.Option.{option_copied};
ghost use Rattle.c62_grid.specs.Landing.{landed_in_row, landed_name};
ghost use Rattle.c62_show.specs.Head.{name};
ghost use Rattle.c62_show.specs.Picture.{limit_lines};
ghost use Rattle.c62_show.specs.Registers.{names, register_lines};
ghost use Rattle.c62_show.specs.Summary.{size_of};
ghost use Rattle.c62_show.specs.Whys.{cause_words};

use c62_grid::{Landed, Landing, push_all_landed, push_landed_name};
use c62_insn::Reg;
use c62_live::Lives;
use c62_read::Label;
use c62_show::{
    Limits, Shown, push_cause, push_limits, push_name, push_names, push_registers, push_size_of,
};
use c62_why::Cause;
use std::alloc::{AllocError, Global};

/// The label of a block, or its number.
pub(crate) fn name(alloc: Global, number: u64, label: Option<&Label>) -> Result<String, AllocError>
    ensures { IfOk result (λ text. string_bytes text ≡ name number (option_copied label.entry)) }
{
    let mut text = String::new(alloc);
    push_name(&mut text, number, label)?;
    Ok(text)
}

/// How long a block is, and whether it could be shorter.
pub(crate) fn size_of(alloc: Global, shown: &Shown) -> Result<String, AllocError>
    ensures { IfOk result (λ text. string_bytes text ≡ size_of shown.now shown.now.packets.placed) }
{
    let mut text = String::new(alloc);
    push_size_of(&mut text, shown)?;
    Ok(text)
}

/// The lines of the critical path and the greatest need.
pub(crate) fn limit_lines(alloc: Global, limits: &Option<Limits>) -> Result<String, AllocError>
    ensures { IfOk result (λ text. string_bytes text ≡ limit_lines limits.now) }
{
    let mut text = String::new(alloc);
    push_limits(alloc, &mut text, limits)?;
    Ok(text)
}

/// The lines of the registers.
pub(crate) fn register_lines(alloc: Global, lives: &Option<Lives>) -> Result<String, AllocError>
    ensures { IfOk result (λ text. string_bytes text ≡ register_lines lives.now) }
{
    let mut text = String::new(alloc);
    push_registers(&mut text, lives)?;
    Ok(text)
}

/// What keeps an instruction from the cycle before its own.
pub(crate) fn cause_words(alloc: Global, cause: &Cause) -> Result<String, AllocError>
    ensures { IfOk result (λ text. string_bytes text ≡ cause_words cause.now) }
{
    let mut text = String::new(alloc);
    push_cause(&mut text, cause)?;
    Ok(text)
}

/// What lands in a cycle.
pub(crate) fn landed_in(
    alloc: Global,
    landings: &[Landing],
    cycle: u32,
) -> Result<String, AllocError>
    ensures { IfOk result (λ text. string_bytes text ≡ flat_map (landed_in_row cycle) landings.now) }
{
    let mut text = String::new(alloc);
    push_all_landed(&mut text, landings, cycle)?;
    Ok(text)
}

/// The name of what lands.
pub(crate) fn landed_name(alloc: Global, what: Landed) -> Result<String, AllocError>
    ensures { IfOk result (λ text. string_bytes text ≡ landed_name what) }
{
    let mut text = String::new(alloc);
    push_landed_name(&mut text, what)?;
    Ok(text)
}

/// The names of registers.
pub(crate) fn names(alloc: Global, regs: &[Reg]) -> Result<String, AllocError>
    ensures { IfOk result (λ text. string_bytes text ≡ names regs.now) }
{
    let mut text = String::new(alloc);
    push_names(&mut text, regs)?;
    Ok(text)
}
