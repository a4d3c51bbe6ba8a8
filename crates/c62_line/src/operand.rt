//! Operands as they are written, labels aside.

ghost use Rattle.std.specs.Prelude.{◌≡◌, true, false, Some, None, MatchOption};

use c62_insn::{AddressForm, InstructionSet, Offset, Operands, Reg};
use c62_token::Kind::{self, Close, Comma, Decrement, Increment, Number, Open, Register, Star};

/// The address of a load or store.
#[derive(Clone, Copy)]
pub(crate) struct Address {
    pub base: Reg,
    pub form: AddressForm,
    pub offset: Offset,
}

ghost use Rattle.c62_line.specs.Operand.{FindsBefore, address_with, usual_offset, with_offset, unsigned_front, address_front, access, loaded, stored, operands_of};

fn address_with(base: Reg, form: AddressForm, offset: Offset) -> Address
    ensures { result ≡ address_with base form offset }
{
    Address { base, form, offset }
}

/// The offset where none is written.
fn usual_offset(form: AddressForm) -> Offset
    ensures { result ≡ usual_offset form }
{
    match form {
        AddressForm::Plus | AddressForm::Minus => Offset::Constant(0),
        _ => Offset::Constant(1),
    }
}

/// An address with the offset that stands behind its base in brackets, if one does, and what stands behind that.
#[inline(always)]
#[tactic(auto, unfolding(crate::specs::Operand::with_offset))]
fn with_offset(base: Reg, form: AddressForm, kinds: &[Kind]) -> Option<(Address, &[Kind])>
    ensures { FindsBefore result (with_offset base form kinds.entry.now) }
{
    match *kinds {
        [Open, Number(k), Close, ..] => {
            Some((address_with(base, form, Offset::Constant(k)), &kinds[3..]))
        }
        [Open, Register(reg), Close, ..] => {
            Some((address_with(base, form, Offset::Register(reg)), &kinds[3..]))
        }
        [Open, ..] => None,
        _ => Some((address_with(base, form, usual_offset(form)), kinds)),
    }
}

/// An address without a sign, which has an offset in the full set alone, and what stands behind it.
fn without_sign(isa: InstructionSet, base: Reg, rest: &[Kind]) -> Option<(Address, &[Kind])>
    ensures { FindsBefore result (unsigned_front isa base rest.entry.now) }
{
    let form = AddressForm::Plus;
    match isa {
        InstructionSet::Core => Some((address_with(base, form, usual_offset(form)), rest)),
        InstructionSet::Full => with_offset(base, form, rest),
    }
}

/// The address behind a `*`, and what stands behind it.
#[inline(always)]
#[tactic(auto, unfolding(crate::specs::Operand::address_front))]
fn read_address(isa: InstructionSet, kinds: &[Kind]) -> Option<(Address, &[Kind])>
    ensures { FindsBefore result (address_front isa kinds.entry.now) }
{
    match *kinds {
        [Kind::Plus, Register(base), ..] => { with_offset(base, AddressForm::Plus, &kinds[2..]) }
        [Kind::Minus, Register(base), ..] => { with_offset(base, AddressForm::Minus, &kinds[2..]) }
        [Increment, Register(base), ..] => {
            with_offset(base, AddressForm::PreIncrement, &kinds[2..])
        }
        [Decrement, Register(base), ..] => {
            with_offset(base, AddressForm::PreDecrement, &kinds[2..])
        }
        [Register(base), Increment, ..] => {
            with_offset(base, AddressForm::PostIncrement, &kinds[2..])
        }
        [Register(base), Decrement, ..] => {
            with_offset(base, AddressForm::PostDecrement, &kinds[2..])
        }
        [Register(base), ..] => without_sign(isa, base, &kinds[1..]),
        _ => None,
    }
}

fn access(reg: Reg, address: Address) -> Operands
    ensures { result ≡ access reg address }
{
    Operands::Access {
        register: reg,
        base: address.base,
        form: address.form,
        offset: address.offset,
    }
}

/// The address behind the `*` of a load, a comma and the register.
fn loaded(isa: InstructionSet, kinds: &[Kind]) -> Option<Operands>
    ensures { result ≡ loaded (address_front isa kinds.now) }
{
    let (address, rest) = read_address(isa, kinds)?;
    match *rest {
        [Comma, Register(reg)] => Some(access(reg, address)),
        _ => None,
    }
}

/// The address behind the `*` of a store of this register, and nothing else.
fn stored(isa: InstructionSet, reg: Reg, kinds: &[Kind]) -> Option<Operands>
    ensures { result ≡ stored reg (address_front isa kinds.now) }
{
    let (address, rest) = read_address(isa, kinds)?;
    if rest.is_empty() {
        Some(access(reg, address))
    } else {
        None
    }
}

/// A register, a comma, `*` and an address.
#[tactic(auto, unfolding(crate::specs::Operand::operands_of))]
fn read_store(isa: InstructionSet, kinds: &[Kind]) -> Option<Operands>
    ensures { result ≡ operands_of isa true kinds.now }
{
    match *kinds {
        [Register(reg), Comma, Star, ..] => stored(isa, reg, &kinds[3..]),
        _ => None,
    }
}

/// The operands of an instruction that is no store.
#[tactic(auto, unfolding(crate::specs::Operand::operands_of))]
fn read_others(isa: InstructionSet, kinds: &[Kind]) -> Option<Operands>
    ensures { result ≡ operands_of isa false kinds.now }
{
    match *kinds {
        [Star, ..] => loaded(isa, &kinds[1..]),
        [Register(a)] => Some(Operands::Register(a)),
        [Register(a), Comma, Register(d)] => Some(Operands::Two(a, d)),
        [Number(k), Comma, Register(d)] => Some(Operands::Constant(k, d)),
        [Register(a), Comma, Register(b), Comma, Register(d)] => Some(Operands::Three(a, b, d)),
        [Number(k), Comma, Register(a), Comma, Register(d)] => {
            Some(Operands::ConstantFirst(k, a, d))
        }
        [Register(a), Comma, Number(k), Comma, Register(d)] => {
            Some(Operands::ConstantSecond(a, k, d))
        }
        [
            Register(a),
            Comma,
            Number(k),
            Comma,
            Number(m),
            Comma,
            Register(d),
        ] => {
            Some(Operands::Field {
                source: a,
                left: k,
                right: m,
                destination: d,
            })
        }
        _ => None,
    }
}

/// All operands but labels; those of a store begin with its register.
#[inline(always)]
pub(crate) fn read_operands(isa: InstructionSet, store: bool, kinds: &[Kind]) -> Option<Operands>
    ensures { result ≡ operands_of isa store kinds.now }
{
    if store {
        read_store(isa, kinds)
    } else {
        read_others(isa, kinds)
    }
}
