//! How operands may be written, and how far a line goes on so.

ghost use Rattle.std.specs.Prelude.{◌≡◌, ◌≤◌, length, map, is_some, Some, None};
ghost use Rattle.c62_op.specs.Shape.{is_branch};
ghost use Rattle.c62_line.specs.Line.{is_storing, operands_written};
ghost use Rattle.c62_place.specs.Shape.{agreeing, all_forms, branches, conditions, furthest, furthest_by, further_shapes, is_stored, pauses, sample, shapes_of, some_register, takes_form};

use crate::sort::Sort::{
    self, Close, Comma, Decrement, Increment, Label, Minus, Not, Number, Open, Plus, Register, Star,
};
use c62_insn::{AddressForm, InstructionSet, Offset, Op, Operands, Reg, Side};
use c62_line::{Mnemonic, is_storing};

/// A way in which operands are written, of which some mnemonics have one and some several.
#[derive(Clone, Copy, PartialEq, Eq, Debug)]
pub enum Form {
    /// Two registers and the destination.
    Three,
    /// A constant, a register and the destination.
    ConstantFirst,
    /// A register, a constant and the destination.
    ConstantSecond,
    /// A register and the destination.
    Two,
    /// A register, two constants and the destination.
    Field,
    /// A constant and the destination.
    Constant,
    /// An address and the destination.
    Load,
    /// A register and an address.
    Store,
    /// A register alone.
    Register,
    /// A label alone.
    Label,
}

impl Form {
    /// All forms, in the order in which they are told.
    pub const ALL: [Form; 10] = [
        Form::Three,
        Form::ConstantFirst,
        Form::ConstantSecond,
        Form::Two,
        Form::Field,
        Form::Constant,
        Form::Load,
        Form::Store,
        Form::Register,
        Form::Label,
    ];
}

/// The lists of sorts of a table.
macro_rules! shapes {
    ($([$($sort:expr),+]),+) => { &[$(&[$($sort),+]),+] };
}

/// For each address behind a `*` what stands before the `*`, the `*`, the address and what stands behind it.
macro_rules! addresses {
    ([$($before:expr),*], [$($behind:expr),*]) => {
        shapes![
            [$($before,)* Star, Register $(, $behind)*],
            [$($before,)* Star, Plus, Register $(, $behind)*],
            [$($before,)* Star, Plus, Register, Open, Number, Close $(, $behind)*],
            [$($before,)* Star, Plus, Register, Open, Register, Close $(, $behind)*],
            [$($before,)* Star, Minus, Register $(, $behind)*],
            [$($before,)* Star, Minus, Register, Open, Number, Close $(, $behind)*],
            [$($before,)* Star, Minus, Register, Open, Register, Close $(, $behind)*],
            [$($before,)* Star, Increment, Register $(, $behind)*],
            [$($before,)* Star, Increment, Register, Open, Number, Close $(, $behind)*],
            [$($before,)* Star, Increment, Register, Open, Register, Close $(, $behind)*],
            [$($before,)* Star, Decrement, Register $(, $behind)*],
            [$($before,)* Star, Decrement, Register, Open, Number, Close $(, $behind)*],
            [$($before,)* Star, Decrement, Register, Open, Register, Close $(, $behind)*],
            [$($before,)* Star, Register, Increment $(, $behind)*],
            [$($before,)* Star, Register, Increment, Open, Number, Close $(, $behind)*],
            [$($before,)* Star, Register, Increment, Open, Register, Close $(, $behind)*],
            [$($before,)* Star, Register, Decrement $(, $behind)*],
            [$($before,)* Star, Register, Decrement, Open, Number, Close $(, $behind)*],
            [$($before,)* Star, Register, Decrement, Open, Register, Close $(, $behind)*]
        ]
    };
}

/// The ways in which tokens spell operands of this form.
fn shapes_of(form: Form) -> &'static [&'static [Sort]]
    ensures { map (λ shape. shape.now) result.now ≡ shapes_of form }
{
    match form {
        Form::Three => shapes![[Register, Comma, Register, Comma, Register]],
        Form::ConstantFirst => shapes![[Number, Comma, Register, Comma, Register]],
        Form::ConstantSecond => shapes![[Register, Comma, Number, Comma, Register]],
        Form::Two => shapes![[Register, Comma, Register]],
        Form::Field => shapes![[Register, Comma, Number, Comma, Number, Comma, Register]],
        Form::Constant => shapes![[Number, Comma, Register]],
        Form::Load => addresses!([], [Comma, Register]),
        Form::Store => addresses!([Register, Comma], []),
        Form::Register => shapes![[Register]],
        Form::Label => shapes![[Label]],
    }
}

/// Those of them that a set has beside: only the full one has an offset behind a base without a sign.
fn further_shapes(isa: InstructionSet, form: Form) -> &'static [&'static [Sort]]
    ensures { map (λ shape. shape.now) result.now ≡ further_shapes isa form }
{
    match (isa, form) {
        (InstructionSet::Full, Form::Load) => shapes![
            [Star, Register, Open, Number, Close, Comma, Register],
            [Star, Register, Open, Register, Close, Comma, Register]
        ],
        (InstructionSet::Full, Form::Store) => shapes![
            [Register, Comma, Star, Register, Open, Number, Close],
            [Register, Comma, Star, Register, Open, Register, Close]
        ],
        _ => &[],
    }
}

fn some_register() -> Reg
    ensures { result ≡ some_register }
{
    Reg {
        side: Side::A,
        number: 0,
    }
}

/// Operands of this form.
fn sample(form: Form) -> Operands
    ensures { result ≡ sample form }
{
    let some = some_register();
    match form {
        Form::Three => Operands::Three(some, some, some),
        Form::ConstantFirst => Operands::ConstantFirst(0, some, some),
        Form::ConstantSecond => Operands::ConstantSecond(some, 0, some),
        Form::Two => Operands::Two(some, some),
        Form::Field => Operands::Field {
            source: some,
            left: 0,
            right: 0,
            destination: some,
        },
        Form::Constant => Operands::Constant(0, some),
        Form::Load | Form::Store => Operands::Access {
            register: some,
            base: some,
            form: AddressForm::Plus,
            offset: Offset::Constant(0),
        },
        Form::Register => Operands::Register(some),
        Form::Label => Operands::Block(0),
    }
}

fn branches(mnemonic: Mnemonic) -> bool
    ensures { result ≡ branches mnemonic }
{
    match mnemonic {
        Mnemonic::Operation(op) => op.is_branch(),
        _ => false,
    }
}

/// Whether the mnemonic has operands of this kind and number.
fn has_kind(isa: InstructionSet, mnemonic: Mnemonic, operands: Operands) -> bool
    ensures { result ≡ is_some (operands_written isa mnemonic None (Some operands)) }
{
    match mnemonic.stands_for(None, operands) {
        Some(read) => {
            let (op, operands) = read;
            op.has_kind_in(isa, operands)
        }
        None => false,
    }
}

/// Whether the mnemonic takes operands of this form, whatever its registers and constants are.
#[tactic(auto, unfolding(crate::specs::Shape::takes_form))]
pub fn takes_form(isa: InstructionSet, mnemonic: Mnemonic, form: Form) -> bool
    ensures { result ≡ takes_form isa mnemonic form }
{
    if form == Form::Label {
        return branches(mnemonic);
    }
    is_storing(mnemonic) == (form == Form::Store) && has_kind(isa, mnemonic, sample(form))
}

/// How many first tokens are of the same sort.
fn agreeing(sorts: &[Sort], shape: &[Sort]) -> usize
    ensures same { result ≡ agreeing sorts.now shape.now }
    ensures within { result ≤ length sorts.now }
{
    match sorts {
        [] => 0,
        [sort, sorts @ ..] => match shape {
            [] => 0,
            [other, shape @ ..] => if sort.is_same(*other) {
                agreeing(sorts, shape) + 1
            } else {
                0
            },
        },
    }
}

/// How many first tokens are those of one of these shapes.
pub(crate) fn furthest(sorts: &[Sort], shapes: &[&[Sort]]) -> usize
    ensures same { result ≡ furthest sorts.now (map (λ shape. shape.now) shapes.now) }
    ensures within { result ≤ length sorts.now }
{
    match shapes {
        [] => 0,
        [shape, shapes @ ..] => agreeing(sorts, shape).max(furthest(sorts, shapes)),
    }
}

fn furthest_by(isa: InstructionSet, mnemonic: Mnemonic, sorts: &[Sort], forms: &[Form]) -> usize
    ensures same { result ≡ furthest_by isa mnemonic sorts.now forms.now }
    ensures within { result ≤ length sorts.now }
{
    match forms {
        [] => 0,
        [form, forms @ ..] => {
            let other = furthest_by(isa, mnemonic, sorts, forms);
            if takes_form(isa, mnemonic, *form) {
                furthest(sorts, shapes_of(*form))
                    .max(furthest(sorts, further_shapes(isa, *form)))
                    .max(other)
            } else {
                other
            }
        }
    }
}

/// How many of these tokens begin the operands of a form of the mnemonic: with the next one no form goes on.
pub fn operands_end(isa: InstructionSet, mnemonic: Mnemonic, sorts: &[Sort]) -> usize
    ensures same { result ≡ furthest_by isa mnemonic sorts.now all_forms }
    ensures within { result ≤ length sorts.now }
{
    furthest_by(isa, mnemonic, sorts, &Form::ALL)
}

/// The first of these tokens with which no condition goes on.
pub(crate) fn condition_end(sorts: &[Sort]) -> usize
    ensures same { result ≡ furthest sorts.now conditions }
    ensures within { result ≤ length sorts.now }
{
    furthest(
        sorts,
        shapes![[Open, Register, Close], [Open, Not, Register, Close]],
    )
}

/// The first of these tokens that may not stand behind a NOP.
pub(crate) fn pause_end(sorts: &[Sort]) -> usize
    ensures same { result ≡ furthest sorts.now pauses }
    ensures within { result ≤ length sorts.now }
{
    furthest(sorts, shapes![[Number]])
}
