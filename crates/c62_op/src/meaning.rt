//! What each operation computes.

ghost use Rattle.std.specs.Prelude.{◌≡◌, ◌<◌, ◌+◌, ◌≤◌, length};
ghost use Rattle.c62_op.specs.Meaning.{result_of, field_of, field_by, low_bytes_of, size_of, offset_value, moved, address_of, base_index, base_after, loaded_of};
ghost use Rattle.c62_op.specs.Shape.{offset_reads};

use crate::operands::{AddressForm, Offset, Op};
use crate::table::{Memory, row_of};
use crate::word::{
    absolute, add_halves, add_saturated, complement, division_step, high, joined, leftmost, low,
    multiply, multiply_mixed, multiply_mixed_first, multiply_saturated, multiply_unsigned,
    ones_from, redundant_signs, shift_left, shift_left_saturated, shift_right,
    shift_right_unsigned, subtract_halves, subtract_saturated, word_of, word_of_signed,
};

impl Op {
    /// The result modulo 2^32, of the words of the two operands in their order, where a constant is its
    /// word and MVKLH and ADDK have the destination second (SPRU189, "Individual Instruction
    /// Descriptions"). 0 of an operation that has another result than one of two words.
    pub fn result(self, a: u32, b: u32) -> u32
        ensures { result ≡ result_of self a b }
    {
        match self {
            Op::Add | Op::Addab => a.wrapping_add(b),
            Op::Addk => b.wrapping_add(a),
            Op::Sub => a.wrapping_sub(b),
            Op::And => a & b,
            Op::Or => a | b,
            Op::Xor => a ^ b,
            Op::Cmpeq => u32::from(a == b),
            Op::Cmpgt => u32::from(a.cast_signed() > b.cast_signed()),
            Op::Cmplt => u32::from(a.cast_signed() < b.cast_signed()),
            Op::Cmpgtu => u32::from(a > b),
            Op::Cmpltu => u32::from(a < b),
            Op::Abs => absolute(a),
            Op::Shl => shift_left(a, b % 64),
            Op::Shr => shift_right(a, b % 64),
            Op::Shru => shift_right_unsigned(a, b % 64),
            Op::Add2 => add_halves(a, b),
            Op::Sub2 => subtract_halves(a, b),
            Op::Mvk => a,
            Op::Mvklh => joined(low(a), low(b)),
            Op::Mpy => multiply(low(a), low(b)),
            Op::Mpyu => multiply_unsigned(low(a), low(b)),
            Op::Mpyus => multiply_mixed(low(a), low(b)),
            Op::Mpysu => multiply_mixed_first(low(a), low(b)),
            Op::Mpyh => multiply(high(a), high(b)),
            Op::Mpyhu => multiply_unsigned(high(a), high(b)),
            Op::Mpyhl => multiply(high(a), low(b)),
            Op::Mpylh => multiply(low(a), high(b)),
            Op::Addah => a.wrapping_add(b.wrapping_mul(2)),
            Op::Addaw => a.wrapping_add(b.wrapping_mul(4)),
            Op::Ext | Op::Extu | Op::Set | Op::Clr => self.field_by(a, b),
            Op::Lmbd => leftmost(a, b),
            Op::Norm => redundant_signs(a),
            Op::Subc => division_step(a, b),
            Op::Sadd => add_saturated(a, b),
            Op::Ssub => subtract_saturated(a, b),
            Op::Sshl => shift_left_saturated(a, b),
            Op::Smpy => multiply_saturated(low(a), low(b)),
            Op::Smpyh => multiply_saturated(high(a), high(b)),
            Op::Smpyhl => multiply_saturated(high(a), low(b)),
            Op::Smpylh => multiply_saturated(low(a), high(b)),
            Op::Mpylhu => multiply_unsigned(low(a), high(b)),
            Op::Mpyhlu => multiply_unsigned(high(a), low(b)),
            Op::Mpyhus => multiply_mixed(high(a), high(b)),
            Op::Mpyhsu => multiply_mixed_first(high(a), high(b)),
            Op::Mpyhuls => multiply_mixed(high(a), low(b)),
            Op::Mpyhslu => multiply_mixed_first(high(a), low(b)),
            Op::Mpyluhs => multiply_mixed(low(a), high(b)),
            Op::Mpylshu => multiply_mixed_first(low(a), high(b)),
            Op::Subab => a.wrapping_sub(b),
            Op::Subah => a.wrapping_sub(b.wrapping_mul(2)),
            Op::Subaw => a.wrapping_sub(b.wrapping_mul(4)),
            _ => 0,
        }
    }

    /// The result of EXTU: `a` shifted left by `k` and then right by `m`. Of SET and CLR: the bits from `k` up to `m` become 1 or 0.
    /// Of other operations that of EXT, which is shifted right with its sign.
    pub fn field(self, a: u32, k: u32, m: u32) -> u32
        ensures { result ≡ field_of self a k m }
    {
        match self {
            Op::Extu => shift_right_unsigned(shift_left(a, k), m),
            Op::Set => a | ones_from(k, m),
            Op::Clr => a & complement(ones_from(k, m)),
            _ => shift_right(shift_left(a, k), m),
        }
    }

    /// The same, of a field that the bits 9 to 5 and 4 to 0 of a register tell.
    fn field_by(self, a: u32, told: u32) -> u32
        ensures { result ≡ field_by self a told }
    {
        self.field(a, told / 32 % 32, told % 32)
    }

    /// The low bytes of `v` that the access of a load or store covers, as a number.
    pub fn low_bytes(self, v: u32) -> u32
        ensures { result ≡ low_bytes_of self v }
    {
        match self.size() {
            1 => v % 0x100,
            2 => v % 0x1_0000,
            _ => v,
        }
    }

    /// The number of bytes of the access of a load or store, 1, 2 or 4; 4 of others.
    pub fn size(self) -> u8
        ensures { result ≡ size_of self }
    {
        match row_of(self).memory {
            Memory::Loads(bytes) | Memory::Stores(bytes) => bytes,
            _ => 4,
        }
    }

    /// The index of the base among the registers that a load or store reads: a store reads its source before it.
    pub fn base_index(self) -> usize
        ensures { result ≡ base_index self }
    {
        if self.is_store() { 1 } else { 0 }
    }

    /// The base moved by the offset times the size of the access, of the values that a load or store reads
    /// (`docs/MACHINE.md`, "Addresses").
    pub fn base_after(self, form: AddressForm, offset: Offset, reads: &[u32]) -> u32
        requires { base_index self + 1 + length (offset_reads offset) ≤ length reads.now }
        ensures { result ≡ base_after self form offset reads.now }
    {
        let base = self.base_index();
        let steps = match offset {
            Offset::Constant(k) => word_of(k),
            Offset::Register(_) => reads[base + 1],
        };
        form.moved(reads[base], steps.wrapping_mul(u32::from(self.size())))
    }

    /// What a load writes, of the bytes that it read as a number: extended by the sign for LDB and LDH, and
    /// by zeros for the others.
    pub fn loaded(self, raw: u32) -> u32
        ensures { result ≡ loaded_of self raw }
    {
        match self {
            Op::Ldb => word_of_signed(i32::from(((raw & 0xff) as u8).cast_signed())),
            Op::Ldh => word_of_signed(i32::from(low(raw).cast_signed())),
            _ => self.low_bytes(raw),
        }
    }
}

impl AddressForm {
    /// The base moved by `distance` bytes, up or down as the form says (SPRU189, "Addressing Modes").
    pub fn moved(self, base: u32, distance: u32) -> u32
        ensures { result ≡ moved self base distance }
    {
        match self {
            AddressForm::Plus | AddressForm::PreIncrement | AddressForm::PostIncrement => {
                base.wrapping_add(distance)
            }
            AddressForm::Minus | AddressForm::PreDecrement | AddressForm::PostDecrement => {
                base.wrapping_sub(distance)
            }
        }
    }

    /// The address, of the base before and after the move: a post form's is the base before it.
    pub fn address(self, base: u32, after: u32) -> u32
        ensures { result ≡ address_of self base after }
    {
        match self {
            AddressForm::PostIncrement | AddressForm::PostDecrement => base,
            _ => after,
        }
    }
}
