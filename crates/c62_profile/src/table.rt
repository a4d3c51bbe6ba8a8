//! The rows of a table.

ghost use Rattle.std.specs.Prelude.{◌≡◌, ◌++◌, ◌*◌, ◌≤◌, OnOk, codes, decimal};
ghost use Rattle.std.specs.Option.{option_copied};
ghost use Rattle.c62_profile.specs.Table.{name, percent, row, thousandths};

use c62_read::Label;
use itoa::Buffer;
use std::alloc::AllocError;

/// A block, how often it was run, and what each run of it takes.
#[derive(Drop)]
pub(crate) struct Row<'a> {
    /// The number of the block, which names it where it has no label.
    pub number: usize,
    pub label: Option<&'a Label>,
    pub runs: u32,
    pub each: u16,
}

pub(crate) fn push_number(out: &mut Vec<u8>, number: u64) -> Result<(), AllocError>
    ensures { OnOk result (out.new.items ≡ out.old.items ++ decimal number) }
{
    let mut buffer = Buffer::new();
    out.extend_from_slice(buffer.format(number).as_bytes())
}

/// A blank and a number.
pub(crate) fn push_field(out: &mut Vec<u8>, number: u64) -> Result<(), AllocError>
    ensures { OnOk result (out.new.items ≡ out.old.items ++ codes " " ++ decimal number) }
{
    out.extend_from_slice(b" ")?;
    push_number(out, number)
}

/// The label of a block, or its number.
fn push_name(out: &mut Vec<u8>, number: usize, label: Option<&Label>) -> Result<(), AllocError>
    ensures { OnOk result (out.new.items ≡ out.old.items ++ name number (option_copied label.entry)) }
{
    match label {
        Some(label) => out.extend_from_slice(label.as_bytes()),
        None => push_number(out, number as u64),
    }
}

/// How many thousandths of the whole a part is, rounded down.
#[tactic(auto, unfolding(crate::specs::Table::thousandths))]
pub fn thousandths(part: u64, whole: u64) -> u64
    requires { part ≤ 1_000_000_000_000_000 }
    ensures { result ≡ thousandths part whole }
{
    if whole == 0 { 0 } else { part * 1000 / whole }
}

/// So many thousandths, as `98.5%`.
pub(crate) fn push_percent(out: &mut Vec<u8>, share: u64) -> Result<(), AllocError>
    ensures { OnOk result (out.new.items ≡ out.old.items ++ percent share) }
{
    push_number(out, share / 10)?;
    out.extend_from_slice(b".")?;
    push_number(out, share % 10)?;
    out.extend_from_slice(b"%")
}

/// The row of a block, in a run that took so much.
#[tactic(auto, unfolding(crate::specs::Table::row))]
pub(crate) fn push_row(out: &mut Vec<u8>, block: &Row<'_>, whole: u64) -> Result<(), AllocError>
    ensures { OnOk result (out.new.items ≡ out.old.items ++ row (name block.now.number (option_copied block.now.label)) block.now.runs block.now.each whole) }
{
    let sum = u64::from(block.runs) * u64::from(block.each);
    push_name(out, block.number, block.label)?;
    push_field(out, u64::from(block.runs))?;
    push_field(out, u64::from(block.each))?;
    push_field(out, sum)?;
    out.extend_from_slice(b" ")?;
    push_percent(out, thousandths(sum, whole))?;
    out.extend_from_slice(b"\n")
}
