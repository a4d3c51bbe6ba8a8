//! What is told of the operands and units of a mnemonic.

use crate::picture::push_number;
use c62_insn::{AddressForm, Letter, Offset, Op, Operands, Reg, Side};
use c62_line::Mnemonic;
use c62_op::InstructionSet;
use c62_place::{Form, Sort, takes_form};
use c62_token::{Kind, Tokens};
use std::alloc::{AllocError, Global};

/// The name of a mnemonic.
pub(crate) fn name_of(mnemonic: Mnemonic) -> &'static [u8] {
    match mnemonic {
        Mnemonic::Operation(op) => op.mnemonic().as_bytes(),
        Mnemonic::Mv => b"MV",
        Mnemonic::Neg => b"NEG",
        Mnemonic::Not => b"NOT",
        Mnemonic::Zero => b"ZERO",
        Mnemonic::Mvkl => b"MVKL",
        Mnemonic::Mvkh => b"MVKH",
        Mnemonic::Nop => b"NOP",
    }
}

/// How operands of a form are written.
fn written(form: Form) -> &'static [u8] {
    match form {
        Form::Three => b"R,R,R",
        Form::ConstantFirst => b"k,R,R",
        Form::ConstantSecond => b"R,k,R",
        Form::Two => b"R,R",
        Form::Field => b"R,k,k,R",
        Form::Constant => b"k,R",
        Form::Load => b"*address,R",
        Form::Store => b"R,*address",
        Form::Register => b"R",
        Form::Label => b"label",
    }
}

/// The operands that a mnemonic takes.
pub(crate) fn push_forms(
    isa: InstructionSet,
    out: &mut Vec<u8>,
    mnemonic: Mnemonic,
) -> Result<(), AllocError> {
    out.extend_from_slice(name_of(mnemonic))?;
    if matches!(mnemonic, Mnemonic::Nop) {
        return out.extend_from_slice(b" takes a number from 1 to 9 or nothing, and no condition");
    }
    let mut between: &[u8] = b" takes ";
    for form in Form::ALL {
        if takes_form(isa, mnemonic, form) {
            out.extend_from_slice(between)?;
            out.extend_from_slice(written(form))?;
            between = b" or ";
        }
    }
    Ok(())
}

/// The letters of units, as they are told.
const LETTERS: [(Letter, &str); 4] = [
    (Letter::L, ".L"),
    (Letter::S, ".S"),
    (Letter::M, ".M"),
    (Letter::D, ".D"),
];

/// The units that a mnemonic runs on.
pub(crate) fn push_letters(out: &mut Vec<u8>, mnemonic: Mnemonic) -> Result<(), AllocError> {
    out.extend_from_slice(name_of(mnemonic))?;
    if matches!(mnemonic, Mnemonic::Nop) {
        return out.extend_from_slice(b" takes no unit");
    }
    let mut between: &[u8] = b" runs on ";
    for (letter, name) in LETTERS {
        if mnemonic.stands_on(letter) {
            out.extend_from_slice(between)?;
            out.extend_from_slice(name.as_bytes())?;
            between = b" and ";
        }
    }
    Ok(())
}

/// The form of operands with a constant, by what the first tokens are.
fn constant_form(sorts: &[Sort]) -> Form {
    match sorts {
        [Sort::Number, Sort::Comma, Sort::Register] => Form::Constant,
        [Sort::Number, ..] => Form::ConstantFirst,
        [Sort::Star, ..] => Form::Load,
        [Sort::Register, Sort::Comma, Sort::Star, ..] => Form::Store,
        [
            Sort::Register,
            Sort::Comma,
            Sort::Number,
            Sort::Comma,
            Sort::Number,
            ..
        ] => Form::Field,
        _ => Form::ConstantSecond,
    }
}

/// Any register.
const SOME: Reg = Reg {
    side: Side::A,
    number: 0,
};

/// Operands of a form with this constant and, where they have an address, this base.
fn with_constant(form: Form, base: Reg, k: i64) -> Operands {
    let some = SOME;
    match form {
        Form::ConstantFirst => Operands::ConstantFirst(k, some, some),
        Form::Constant => Operands::Constant(k, some),
        Form::Field => Operands::Field {
            source: some,
            left: k,
            right: k,
            destination: some,
        },
        Form::Load | Form::Store => Operands::Access {
            register: some,
            base,
            form: AddressForm::Plus,
            offset: Offset::Constant(k),
        },
        _ => Operands::ConstantSecond(some, k, some),
    }
}

/// Whether the mnemonic takes this constant on some unit.
fn takes_constant(isa: InstructionSet, mnemonic: Mnemonic, form: Form, base: Reg, k: i64) -> bool {
    match mnemonic.stands_for(None, with_constant(form, base, k)) {
        Some(read) => {
            let (op, operands) = read;
            op.has_constants_in_range(isa, operands)
        }
        None => false,
    }
}

/// The first of these constants that the mnemonic takes.
fn first_taken(
    isa: InstructionSet,
    mnemonic: Mnemonic,
    form: Form,
    base: Reg,
    constants: &[i64],
) -> i64 {
    for k in constants {
        if takes_constant(isa, mnemonic, form, base, *k) {
            return *k;
        }
    }
    0
}

fn push_constant(out: &mut Vec<u8>, k: i64) -> Result<(), AllocError> {
    if k < 0 {
        out.extend_from_slice(b"-")?;
    }
    push_number(out, k.unsigned_abs())
}

/// Ends of the ranges of the instruction table, the widest first.
const LOWS: [i64; 4] = [-32768, -16, -15, 0];

const HIGHS: [i64; 5] = [65535, 32767, 31, 16, 15];

/// The first register behind a `*`.
fn base_behind(
    isa: InstructionSet,
    found: Option<Reg>,
    sorts: &[Sort],
    word: &[u8],
) -> Option<Reg> {
    if found.is_some() || !sorts.contains(&Sort::Star) {
        return found;
    }
    match Kind::of(word).read_in(isa) {
        Kind::Register(reg) => Some(reg),
        _ => None,
    }
}

/// The constants that a mnemonic takes with such operands.
pub(crate) fn push_range(
    isa: InstructionSet,
    out: &mut Vec<u8>,
    alloc: Global,
    mnemonic: Mnemonic,
    behind: Tokens<'_>,
) -> Result<(), AllocError> {
    let mut sorts = Vec::new(alloc);
    let mut base = None;
    let mut left = behind;
    while let Some((word, rest)) = left.split() {
        if !word.starts_with(b".") {
            base = base_behind(isa, base, &sorts, word);
            sorts.push(Sort::of(isa, word))?;
        }
        left = rest;
    }
    let form = constant_form(&sorts);
    let base = base.unwrap_or(SOME);
    out.extend_from_slice(name_of(mnemonic))?;
    out.extend_from_slice(b" takes ")?;
    push_constant(out, first_taken(isa, mnemonic, form, base, &LOWS))?;
    out.extend_from_slice(b" to ")?;
    push_constant(out, first_taken(isa, mnemonic, form, base, &HIGHS))?;
    out.extend_from_slice(b" here")?;
    if matches!(mnemonic, Mnemonic::Operation(Op::Mvk)) {
        out.extend_from_slice(b"; MVKL and MVKH make any word")?;
    }
    Ok(())
}

/// The registers behind a mnemonic, each with its side.
pub(crate) fn push_sides(
    isa: InstructionSet,
    out: &mut Vec<u8>,
    behind: Tokens<'_>,
) -> Result<(), AllocError> {
    let mut left = behind;
    let mut between: &[u8] = b"";
    while let Some((word, rest)) = left.split() {
        if let Kind::Register(reg) = Kind::of(word).read_in(isa) {
            out.extend_from_slice(between)?;
            out.extend_from_slice(word)?;
            out.extend_from_slice(match reg.side {
                Side::A => b" is on side 1",
                Side::B => b" is on side 2",
            })?;
            between = b", ";
        }
        left = rest;
    }
    Ok(())
}
