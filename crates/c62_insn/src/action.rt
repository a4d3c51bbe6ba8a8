//! What an instruction does to registers and memory, found by one look at its operands.

ghost use Rattle.std.specs.Prelude.{◌≡◌};
ghost use Rattle.c62_insn.specs.Action.{word_at};

use crate::effect::{Access, Target};
use c62_op::{AddressForm, Offset, Op, Operands, Reg, word_of};

/// A load or a store.
#[derive(Clone, Copy, PartialEq, Eq, Debug)]
pub struct Transfer {
    /// Its access to memory.
    pub access: Access,
    /// The base and its new word, where the address form changes it.
    pub base: Option<(Reg, u32)>,
    /// The destination of a load.
    pub loads: Option<Reg>,
}

/// What an instruction does whose condition holds.
#[derive(Clone, Copy, PartialEq, Eq, Debug)]
pub enum Action {
    /// A register gets a word, after the delay of the operation.
    Write(Reg, u32),
    /// Memory is read or written.
    Transfer(Transfer),
    /// A branch is taken.
    Branch(Target),
}

ghost use Rattle.c62_insn.specs.Action.{offset_word, IsAction, IsTransfer};

/// The word of a register among those of A0 to A15 and B0 to B15.
pub(crate) fn word(registers: &[u32; 32], reg: Reg) -> u32
    ensures { result ≡ word_at registers.now reg }
{
    registers[usize::from(reg.index())]
}

/// The offset of an address as a word.
fn steps(registers: &[u32; 32], offset: Offset) -> u32
    ensures { result ≡ offset_word (word_at registers.now) offset }
{
    match offset {
        Offset::Constant(k) => word_of(k),
        Offset::Register(reg) => word(registers, reg),
    }
}

/// The load or store of a register at an address.
#[inline(always)]
fn transfer_of(
    registers: &[u32; 32],
    op: Op,
    reg: Reg,
    base: Reg,
    form: AddressForm,
    offset: Offset,
) -> Transfer
    ensures { IsTransfer op reg base form offset (word_at registers.now) result }
{
    let size = op.size();
    let before = word(registers, base);
    let distance = steps(registers, offset).wrapping_mul(u32::from(size));
    let after = form.moved(before, distance);
    Transfer {
        access: Access {
            address: form.address(before, after),
            size,
            value: if op.is_store() {
                Some(op.low_bytes(word(registers, reg)))
            } else {
                None
            },
        },
        base: if form.changes_base() {
            Some((base, after))
        } else {
            None
        },
        loads: if op.is_load() { Some(reg) } else { None },
    }
}

/// What an operation does to its operands.
#[inline(always)]
pub(crate) fn act(registers: &[u32; 32], op: Op, operands: &Operands) -> Action
    ensures { IsAction op operands.now (word_at registers.now) result }
{
    match *operands {
        Operands::Three(a, b, d) => {
            Action::Write(d, op.result(word(registers, a), word(registers, b)))
        }
        Operands::ConstantFirst(k, a, d) => {
            Action::Write(d, op.result(word_of(k), word(registers, a)))
        }
        Operands::ConstantSecond(a, k, d) => {
            Action::Write(d, op.result(word(registers, a), word_of(k)))
        }
        Operands::Two(a, d) => Action::Write(d, op.result(word(registers, a), 0)),
        Operands::Field {
            source: a,
            left: k,
            right: m,
            destination: d,
        } => { Action::Write(d, op.field(word(registers, a), word_of(k), word_of(m))) }
        Operands::Constant(k, d) => {
            let old = if op.reads_destination() {
                word(registers, d)
            } else {
                0
            };
            Action::Write(d, op.result(word_of(k), old))
        }
        Operands::Access {
            register: reg,
            base,
            form,
            offset,
        } => { Action::Transfer(transfer_of(registers, op, reg, base, form, offset)) }
        Operands::Block(number) => Action::Branch(Target::Block(number)),
        Operands::Register(reg) => Action::Branch(Target::Register(word(registers, reg))),
    }
}
