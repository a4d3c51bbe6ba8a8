//! Writes instructions.

ghost use Rattle.std.specs.Prelude.{◌≡◌, ◌++◌, OnOk, codes, decimal, encode_utf8};
ghost use Rattle.std.specs.Fmt.{signed_decimal};
ghost use Rattle.c62_insn.specs.Insn.{op_of, operands_of};
ghost use Rattle.c62_op.specs.Name.{file_letter, register_name};
ghost use Rattle.c62_insn.specs.Spelling.{side_digit, unit_letter, condition_spelling, unit_spelling, offset_spelling, sign_of, step_of, is_base_alone, address_spelling, access_spelling, field_spelling, spelling};
ghost use Rattle.c62_listing.specs.Names.{operands_to};
ghost use Rattle.c62_listing.specs.Written.{AddsText};

use c62_insn::{AddressForm, Cond, Insn, Letter, Offset, Op, Operands, Reg, Side, Unit};
use itoa::Buffer;
use std::alloc::AllocError;

fn file_letter(side: Side) -> char
    ensures { encode_utf8 result ≡ file_letter side }
{
    match side {
        Side::A => 'A',
        Side::B => 'B',
    }
}

fn side_digit(side: Side) -> char
    ensures { encode_utf8 result ≡ side_digit side }
{
    match side {
        Side::A => '1',
        Side::B => '2',
    }
}

fn unit_letter(letter: Letter) -> char
    ensures { encode_utf8 result ≡ unit_letter letter }
{
    match letter {
        Letter::L => 'L',
        Letter::S => 'S',
        Letter::M => 'M',
        Letter::D => 'D',
    }
}

/// Appends the number of a register.
#[tactic(auto, using(std::proofs::lemmas::Fmt::decimal_digit))]
fn push_number(out: &mut String, number: u8) -> Result<(), AllocError>
    ensures { OnOk result (AddsText out.old (decimal number) out.new) }
{
    if number < 10 {
        return out.push(char::from(b'0' + number));
    }
    let mut buffer = Buffer::new();
    out.push_str(buffer.format(number))
}

pub(crate) fn push_register(out: &mut String, reg: Reg) -> Result<(), AllocError>
    ensures { OnOk result (AddsText out.old (register_name reg) out.new) }
{
    out.push(file_letter(reg.side))?;
    push_number(out, reg.number)
}

fn push_constant(out: &mut String, constant: i64) -> Result<(), AllocError>
    ensures { OnOk result (AddsText out.old (signed_decimal constant) out.new) }
{
    let mut buffer = Buffer::new();
    out.push_str(buffer.format(constant))
}

fn push_condition(out: &mut String, cond: Option<Cond>) -> Result<(), AllocError>
    ensures { OnOk result (AddsText out.old (condition_spelling cond) out.new) }
{
    if let Some(cond) = cond {
        out.push_str(if cond.negated { "[!" } else { "[" })?;
        push_register(out, cond.reg)?;
        out.push_str("] ")?;
    }
    Ok(())
}

fn push_unit(out: &mut String, insn: Insn, unit: Unit) -> Result<(), AllocError>
    ensures { OnOk result (AddsText out.old (unit_spelling (operands_of insn) unit) out.new) }
{
    out.push('.')?;
    out.push(unit_letter(unit.letter))?;
    out.push(side_digit(unit.side))?;
    if insn.crosses(unit) {
        out.push('X')?;
    }
    if let Some(path) = insn.data_path() {
        out.push('T')?;
        out.push(side_digit(path))?;
    }
    Ok(())
}

fn push_offset(out: &mut String, offset: Offset) -> Result<(), AllocError>
    ensures { OnOk result (AddsText out.old (offset_spelling offset) out.new) }
{
    match offset {
        Offset::Constant(constant) => push_constant(out, constant),
        Offset::Register(reg) => push_register(out, reg),
    }
}

/// What stands before the base.
fn sign(form: AddressForm) -> &'static str
    ensures { result.now ≡ sign_of form }
{
    match form {
        AddressForm::Plus => "+",
        AddressForm::Minus => "-",
        AddressForm::PreIncrement => "++",
        AddressForm::PreDecrement => "--",
        AddressForm::PostIncrement | AddressForm::PostDecrement => "",
    }
}

/// What stands after the base.
fn step(form: AddressForm) -> &'static str
    ensures { result.now ≡ step_of form }
{
    match form {
        AddressForm::PostIncrement => "++",
        AddressForm::PostDecrement => "--",
        _ => "",
    }
}

/// Whether the base alone is written.
fn is_base_alone(form: AddressForm, offset: Offset) -> bool
    ensures { result ≡ is_base_alone form offset }
{
    match (form, offset) {
        (AddressForm::Plus, Offset::Constant(constant)) => constant == 0,
        _ => false,
    }
}

fn push_address(
    out: &mut String,
    base: Reg,
    form: AddressForm,
    offset: Offset,
) -> Result<(), AllocError>
    ensures { OnOk result (AddsText out.old (address_spelling base form offset) out.new) }
{
    out.push('*')?;
    if is_base_alone(form, offset) {
        return push_register(out, base);
    }
    out.push_str(sign(form))?;
    push_register(out, base)?;
    out.push_str(step(form))?;
    out.push('[')?;
    push_offset(out, offset)?;
    out.push(']')
}

/// A register with another operand behind it.
fn push_source(out: &mut String, reg: Reg) -> Result<(), AllocError>
    ensures { OnOk result (AddsText out.old (register_name reg ++ codes ",") out.new) }
{
    push_register(out, reg)?;
    out.push(',')
}

/// A constant with another operand behind it.
fn push_first_constant(out: &mut String, constant: i64) -> Result<(), AllocError>
    ensures { OnOk result (AddsText out.old (signed_decimal constant ++ codes ",") out.new) }
{
    push_constant(out, constant)?;
    out.push(',')
}

fn push_field(
    out: &mut String,
    source: Reg,
    left: i64,
    right: i64,
    destination: Reg,
) -> Result<(), AllocError>
    ensures { OnOk result (AddsText out.old (field_spelling source left right destination) out.new) }
{
    push_source(out, source)?;
    push_first_constant(out, left)?;
    push_first_constant(out, right)?;
    push_register(out, destination)
}

fn push_access(
    out: &mut String,
    op: Op,
    reg: Reg,
    base: Reg,
    form: AddressForm,
    offset: Offset,
) -> Result<(), AllocError>
    ensures { OnOk result (AddsText out.old (access_spelling op reg (address_spelling base form offset)) out.new) }
{
    if op.is_store() {
        push_source(out, reg)?;
        push_address(out, base, form, offset)
    } else {
        push_address(out, base, form, offset)?;
        out.push(',')?;
        push_register(out, reg)
    }
}

fn push_operands(
    out: &mut String,
    insn: Insn,
    letter: Letter,
    label: &str,
) -> Result<(), AllocError>
    ensures { OnOk result (AddsText out.old (operands_to label.now insn letter) out.new) }
{
    match insn.operands() {
        Operands::Three(a, b, d) => {
            push_source(out, a)?;
            push_source(out, b)?;
            push_register(out, d)
        }
        Operands::ConstantFirst(constant, a, d) => {
            if letter == Letter::D {
                push_source(out, a)?;
                push_first_constant(out, constant)?;
            } else {
                push_first_constant(out, constant)?;
                push_source(out, a)?;
            }
            push_register(out, d)
        }
        Operands::ConstantSecond(a, constant, d) => {
            push_source(out, a)?;
            push_first_constant(out, constant)?;
            push_register(out, d)
        }
        Operands::Two(a, d) => {
            push_source(out, a)?;
            push_register(out, d)
        }
        Operands::Field {
            source: a,
            left,
            right,
            destination: d,
        } => push_field(out, a, left, right, d),
        Operands::Constant(constant, d) => {
            push_first_constant(out, constant)?;
            push_register(out, d)
        }
        Operands::Access {
            register: reg,
            base,
            form,
            offset,
        } => push_access(out, insn.op(), reg, base, form, offset),
        Operands::Block(_) => out.push_str(label),
        Operands::Register(target) => push_register(out, target),
    }
}

/// Appends `insn` as it is written on `unit`, where `label` is the name of the block that a branch goes to (docs/LISTING.md).
///
/// # Errors
///
/// `AllocError` where memory ran out.
pub fn push_spelling(
    out: &mut String,
    insn: Insn,
    unit: Unit,
    label: &str,
) -> Result<(), AllocError>
    ensures { OnOk result (AddsText out.old (spelling (λ _. label.now) insn unit) out.new) }
{
    push_condition(out, insn.cond())?;
    out.push_str(insn.op().mnemonic())?;
    out.push(' ')?;
    push_unit(out, insn, unit)?;
    out.push(' ')?;
    push_operands(out, insn, unit.letter, label)
}
