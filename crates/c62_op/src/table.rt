//! The instruction table: a row for each operation.

ghost use Rattle.std.specs.Prelude.{◌≡◌};
ghost use Rattle.c62_op.specs.Table.{forms_of, said_by, row_of, usual, single_cycle, multiply, updating, logic, with_constant, unsigned_comparison, product, shift, bit_field, address_sum, accesses, load, store};

use crate::form::Pattern::{
    Address, ConstantAlone, ConstantSource, FarAddress, OneSource, SourceConstant, SourceField,
    ToBlock, ToRegister, TwoSources,
};
use crate::form::Reach::{Crossing, Own};
use crate::form::{Form, Range};
use crate::operands::Op;
use crate::register::Letter;
use crate::set::InstructionSet;
use crate::set::InstructionSet::{Core, Full};

/// How an operation uses memory.
#[derive(Clone, Copy, PartialEq, Eq, Debug)]
pub(crate) enum Memory {
    /// Not at all.
    Unused,
    /// It loads so many bytes.
    Loads(u8),
    /// It stores so many bytes.
    Stores(u8),
}

/// What the table says of an operation.
#[derive(Clone, Copy)]
pub(crate) struct Row {
    /// The name in assembly text, in capitals.
    pub name: &'static str,
    /// The delay slots of the result, in cycles.
    pub delay: u8,
    /// How it uses memory.
    pub memory: Memory,
    /// Whether the destination is a source too.
    pub destination_is_source: bool,
    /// Whether no form lets the first source cross, so that it is `BadSide` where it lies across.
    pub first_is_fixed: bool,
    /// The same of the second source.
    pub second_is_fixed: bool,
    /// The units that take the operation, and with which operands.
    pub forms: &'static [Form],
}

/// -16 to 15
const SCST5: Range = Range { low: -16, high: 15 };
/// -15 to 16, for a subtraction that is made as an addition
const NEGATED: Range = Range { low: -15, high: 16 };
/// 0 to 15
const UCST4: Range = Range { low: 0, high: 15 };
/// 0 to 31
const UCST5: Range = Range { low: 0, high: 31 };
/// 0 to 32767
const UCST15: Range = Range {
    low: 0,
    high: 32767,
};
/// -32768 to 32767
const SCST16: Range = Range {
    low: -32768,
    high: 32767,
};
/// 0 to 65535
const UCST16: Range = Range {
    low: 0,
    high: 65535,
};

/// The forms of these lines of the table: the set that a line belongs to, the letters of units, and the operands that each of them
/// takes.
macro_rules! forms {
    ($($set:ident $($letter:ident)+: $pattern:expr),+) => {
        &[$($(Form { set: $set, letter: Letter::$letter, pattern: $pattern }),+),+]
    };
}

/// A row of an operation whose destination is no source, and whose sources are not fixed.
#[inline(always)]
fn usual(name: &'static str, delay: u8, memory: Memory, forms: &'static [Form]) -> Row
    ensures { said_by result ≡ usual name.now delay memory forms.now }
{
    Row {
        name,
        delay,
        memory,
        destination_is_source: false,
        first_is_fixed: false,
        second_is_fixed: false,
        forms,
    }
}

#[inline(always)]
fn single_cycle(name: &'static str, forms: &'static [Form]) -> Row
    ensures { said_by result ≡ single_cycle name.now forms.now }
{
    usual(name, 0, Memory::Unused, forms)
}

#[inline(always)]
fn multiply(name: &'static str, forms: &'static [Form]) -> Row
    ensures { said_by result ≡ multiply name.now forms.now }
{
    usual(name, 1, Memory::Unused, forms)
}

/// A row of an operation whose destination is a source too.
#[inline(always)]
fn updating(name: &'static str, forms: &'static [Form]) -> Row
    ensures { said_by result ≡ updating name.now forms.now }
{
    Row {
        destination_is_source: true,
        ..single_cycle(name, forms)
    }
}

#[inline(always)]
fn logic(name: &'static str) -> Row
    ensures { said_by result ≡ logic name.now }
{
    let forms =
        forms![Core L S: TwoSources(Own, Crossing), Core L S: ConstantSource(SCST5, Crossing)];
    single_cycle(name, forms)
}

/// An operation on .L of two sources, of which the first may be a signed constant.
#[inline(always)]
fn with_constant(set: InstructionSet, name: &'static str) -> Row
    ensures { said_by result ≡ with_constant set name.now }
{
    let forms = match set {
        Core => forms![Core L: TwoSources(Own, Crossing), Core L: ConstantSource(SCST5, Crossing)],
        Full => forms![Full L: TwoSources(Own, Crossing), Full L: ConstantSource(SCST5, Crossing)],
    };
    single_cycle(name, forms)
}

/// A multiply of two registers.
#[inline(always)]
fn product(set: InstructionSet, name: &'static str) -> Row
    ensures { said_by result ≡ product set name.now }
{
    let forms = match set {
        Core => forms![Core M: TwoSources(Own, Crossing)],
        Full => forms![Full M: TwoSources(Own, Crossing)],
    };
    multiply(name, forms)
}

/// A comparison of unsigned numbers, whose constant the full set alone has.
#[inline(always)]
fn unsigned_comparison(name: &'static str) -> Row
    ensures { said_by result ≡ unsigned_comparison name.now }
{
    let forms = forms![Core L: TwoSources(Own, Crossing), Full L: ConstantSource(UCST4, Crossing)];
    single_cycle(name, forms)
}

#[inline(always)]
fn shift(set: InstructionSet, name: &'static str) -> Row
    ensures { said_by result ≡ shift set name.now }
{
    let forms = match set {
        Core => forms![Core S: TwoSources(Crossing, Own), Core S: SourceConstant(Crossing, UCST5)],
        Full => forms![Full S: TwoSources(Crossing, Own), Full S: SourceConstant(Crossing, UCST5)],
    };
    Row {
        second_is_fixed: true,
        ..single_cycle(name, forms)
    }
}

/// An operation on a field of bits. Two constants tell it or, in the full set alone, a register.
#[inline(always)]
fn bit_field(set: InstructionSet, name: &'static str) -> Row
    ensures { said_by result ≡ bit_field set name.now }
{
    let forms = match set {
        Core => forms![Core S: SourceField(UCST5), Full S: TwoSources(Crossing, Own)],
        Full => forms![Full S: SourceField(UCST5), Full S: TwoSources(Crossing, Own)],
    };
    Row {
        second_is_fixed: true,
        ..single_cycle(name, forms)
    }
}

#[inline(always)]
fn address_sum(set: InstructionSet, name: &'static str) -> Row
    ensures { said_by result ≡ address_sum set name.now }
{
    let forms = match set {
        Core => forms![Core D: TwoSources(Own, Own), Core D: SourceConstant(Own, UCST5)],
        Full => forms![Full D: TwoSources(Own, Own), Full D: SourceConstant(Own, UCST5)],
    };
    Row {
        first_is_fixed: true,
        second_is_fixed: true,
        ..single_cycle(name, forms)
    }
}

/// The forms of an access.
#[inline(always)]
fn accesses() -> &'static [Form]
    ensures { result.now ≡ accesses }
{
    forms![Core D: Address(UCST5), Full D: FarAddress(UCST15)]
}

#[inline(always)]
fn load(name: &'static str, bytes: u8) -> Row
    ensures { said_by result ≡ load name.now bytes }
{
    usual(name, 4, Memory::Loads(bytes), accesses())
}

#[inline(always)]
fn store(name: &'static str, bytes: u8) -> Row
    ensures { said_by result ≡ store name.now bytes }
{
    usual(name, 0, Memory::Stores(bytes), accesses())
}

/// The row of `op`.
#[inline(always)]
pub(crate) fn row_of(op: Op) -> Row
    ensures { said_by result ≡ row_of op }
{
    match op {
        Op::Add => single_cycle(
            "ADD",
            forms![
                Core L S: TwoSources(Own, Crossing),
                Core L S: ConstantSource(SCST5, Crossing),
                Core D: TwoSources(Own, Own),
                Core D: ConstantSource(UCST5, Own)
            ],
        ),
        Op::Sub => single_cycle(
            "SUB",
            forms![
                Core L: TwoSources(Own, Crossing),
                Core L: TwoSources(Crossing, Own),
                Core S: TwoSources(Own, Crossing),
                Core D: TwoSources(Own, Own),
                Core L S: ConstantSource(SCST5, Crossing),
                Core D: SourceConstant(Own, UCST5),
                Core L S: SourceConstant(Crossing, NEGATED)
            ],
        ),
        Op::And => logic("AND"),
        Op::Or => logic("OR"),
        Op::Xor => logic("XOR"),
        Op::Abs => single_cycle("ABS", forms![Core L: OneSource(Crossing)]),
        Op::Add2 => single_cycle("ADD2", forms![Core S: TwoSources(Own, Crossing)]),
        Op::Sub2 => Row {
            first_is_fixed: true,
            ..single_cycle("SUB2", forms![Core S: TwoSources(Own, Crossing)])
        },
        Op::Cmpeq => with_constant(Core, "CMPEQ"),
        Op::Cmpgt => with_constant(Core, "CMPGT"),
        Op::Cmplt => with_constant(Core, "CMPLT"),
        Op::Cmpgtu => unsigned_comparison("CMPGTU"),
        Op::Cmpltu => unsigned_comparison("CMPLTU"),
        Op::Shl => shift(Core, "SHL"),
        Op::Shr => shift(Core, "SHR"),
        Op::Shru => shift(Core, "SHRU"),
        Op::Ext => bit_field(Core, "EXT"),
        Op::Extu => bit_field(Core, "EXTU"),
        Op::Mvk => single_cycle("MVK", forms![Core S: ConstantAlone(SCST16)]),
        Op::Mvklh => updating("MVKLH", forms![Core S: ConstantAlone(UCST16)]),
        Op::Addk => updating("ADDK", forms![Core S: ConstantAlone(SCST16)]),
        Op::Mpy => multiply(
            "MPY",
            forms![Core M: TwoSources(Own, Crossing), Core M: ConstantSource(SCST5, Crossing)],
        ),
        Op::Mpyu => product(Core, "MPYU"),
        Op::Mpyus => product(Core, "MPYUS"),
        Op::Mpysu => multiply(
            "MPYSU",
            forms![Core M: TwoSources(Own, Crossing), Full M: ConstantSource(SCST5, Crossing)],
        ),
        Op::Mpyh => product(Core, "MPYH"),
        Op::Mpyhu => product(Core, "MPYHU"),
        Op::Mpyhl => product(Core, "MPYHL"),
        Op::Mpylh => product(Core, "MPYLH"),
        Op::Addab => address_sum(Core, "ADDAB"),
        Op::Addah => address_sum(Core, "ADDAH"),
        Op::Addaw => address_sum(Core, "ADDAW"),
        Op::Ldb => load("LDB", 1),
        Op::Ldbu => load("LDBU", 1),
        Op::Ldh => load("LDH", 2),
        Op::Ldhu => load("LDHU", 2),
        Op::Ldw => load("LDW", 4),
        Op::Stb => store("STB", 1),
        Op::Sth => store("STH", 2),
        Op::Stw => store("STW", 4),
        Op::B => usual(
            "B",
            5,
            Memory::Unused,
            forms![Core S: ToBlock, Core S: ToRegister(Own), Full S: ToRegister(Crossing)],
        ),
        Op::Lmbd => Row {
            first_is_fixed: true,
            ..with_constant(Full, "LMBD")
        },
        Op::Norm => single_cycle("NORM", forms![Full L: OneSource(Crossing)]),
        Op::Subc => Row {
            first_is_fixed: true,
            ..single_cycle("SUBC", forms![Full L: TwoSources(Own, Crossing)])
        },
        Op::Sadd => with_constant(Full, "SADD"),
        Op::Ssub => single_cycle(
            "SSUB",
            forms![
                Full L: TwoSources(Own, Crossing),
                Full L: TwoSources(Crossing, Own),
                Full L: ConstantSource(SCST5, Crossing)
            ],
        ),
        Op::Set => bit_field(Full, "SET"),
        Op::Clr => bit_field(Full, "CLR"),
        Op::Sshl => shift(Full, "SSHL"),
        Op::Smpy => product(Full, "SMPY"),
        Op::Smpyh => product(Full, "SMPYH"),
        Op::Smpyhl => product(Full, "SMPYHL"),
        Op::Smpylh => product(Full, "SMPYLH"),
        Op::Mpylhu => product(Full, "MPYLHU"),
        Op::Mpyhlu => product(Full, "MPYHLU"),
        Op::Mpyhus => product(Full, "MPYHUS"),
        Op::Mpyhsu => product(Full, "MPYHSU"),
        Op::Mpyhuls => product(Full, "MPYHULS"),
        Op::Mpyhslu => product(Full, "MPYHSLU"),
        Op::Mpyluhs => product(Full, "MPYLUHS"),
        Op::Mpylshu => product(Full, "MPYLSHU"),
        Op::Subab => address_sum(Full, "SUBAB"),
        Op::Subah => address_sum(Full, "SUBAH"),
        Op::Subaw => address_sum(Full, "SUBAW"),
    }
}

/// The forms of `op`.
#[inline(always)]
pub(crate) fn forms(op: Op) -> &'static [Form]
    ensures { result.now ≡ forms_of op }
{
    row_of(op).forms
}
