//! Mnemonics, and what the reader makes of them.

ghost use Rattle.std.specs.Prelude.{◌≡◌, pos};
ghost use Rattle.std.specs.List.{filter, find};
ghost use Rattle.std.specs.Str.{bytes_eq};
ghost use Rattle.c62_op.specs.Table.{mnemonic_of, all_operations};
ghost use Rattle.c62_token.specs.Number.{spells};
ghost use Rattle.c62_op.specs.Word.{word, lo};

use c62_insn::Op::{
    Abs, Add, Add2, Addab, Addah, Addaw, Addk, And, B, Clr, Cmpeq, Cmpgt, Cmpgtu, Cmplt, Cmpltu,
    Ext, Extu, Ldb, Ldbu, Ldh, Ldhu, Ldw, Lmbd, Mpy, Mpyh, Mpyhl, Mpyhlu, Mpyhslu, Mpyhsu, Mpyhu,
    Mpyhuls, Mpyhus, Mpylh, Mpylhu, Mpylshu, Mpyluhs, Mpysu, Mpyu, Mpyus, Mvk, Mvklh, Norm, Or,
    Sadd, Set, Shl, Shr, Shru, Smpy, Smpyh, Smpyhl, Smpylh, Sshl, Ssub, Stb, Sth, Stw, Sub, Sub2,
    Subab, Subah, Subaw, Subc, Xor,
};
use c62_insn::{InstructionSet, Letter, Op, Operands, Reg, word_of};
use c62_token::number::spells;

/// What may stand first in an instruction.
#[derive(Clone, Copy)]
pub enum Mnemonic {
    Operation(Op),
    Mv,
    Neg,
    Not,
    Zero,
    Mvkl,
    Mvkh,
    Nop,
}

ghost use Rattle.c62_line.specs.Mnemonic.{begins_so, if_in, operation_named, pseudo_named, mnemonic_named, stands_on, exchanged, low_half, signed_low_half, high_half, constant_to_front, crossed_to_back, in_order, zero_in, stands_for};

/// Operations among which each is whose name begins with this small letter, in their order.
fn beginning_with(letter: u8) -> &'static [Op]
    ensures { filter (begins_so letter) result.now ≡ filter (begins_so letter) all_operations }
{
    match letter {
        b'a' => &[Add, And, Abs, Add2, Addk, Addab, Addah, Addaw],
        b'b' => &[B],
        b'c' => &[Cmpeq, Cmpgt, Cmplt, Cmpgtu, Cmpltu, Clr],
        b'e' => &[Ext, Extu],
        b'l' => &[Ldb, Ldbu, Ldh, Ldhu, Ldw, Lmbd],
        b'm' => &[
            Mvk, Mvklh, Mpy, Mpyu, Mpyus, Mpysu, Mpyh, Mpyhu, Mpyhl, Mpylh, Mpylhu, Mpyhlu, Mpyhus,
            Mpyhsu, Mpyhuls, Mpyhslu, Mpyluhs, Mpylshu,
        ],
        b'n' => &[Norm],
        b'z' => &[],
        b'o' => &[Or],
        b's' => &[
            Sub, Sub2, Shl, Shr, Shru, Stb, Sth, Stw, Subc, Sadd, Ssub, Set, Sshl, Smpy, Smpyh,
            Smpyhl, Smpylh, Subab, Subah, Subaw,
        ],
        b'x' => &[Xor],
        _ => &Op::ALL,
    }
}

/// Operations whose names in capitals begin with this letter and have this length. What is missing here is found among all
/// whose names begin so, which takes longer.
#[inline(always)]
fn of_length(letter: u8, length: usize) -> &'static [Op] {
    match (letter, length) {
        (b'A', 3) => &[Add, And, Abs],
        (b'A', 4) => &[Addk, Add2],
        (b'A', 5) => &[Addaw, Addah, Addab],
        (b'B', 1) => &[B],
        (b'C', 5) => &[Cmpgt, Cmplt, Cmpeq],
        (b'C', 6) => &[Cmpgtu, Cmpltu],
        (b'E', 3) => &[Ext],
        (b'C', 3) => &[Clr],
        (b'E', 4) => &[Extu],
        (b'L', 3) => &[Ldw, Ldh, Ldb],
        (b'M', 3) => &[Mpy, Mvk],
        (b'M', 4) => &[Mpyh, Mpyu],
        (b'L', 4) => &[Ldhu, Ldbu, Lmbd],
        (b'M', 5) => &[Mvklh, Mpyhl, Mpylh, Mpyhu, Mpyus, Mpysu],
        (b'M', 6) => &[Mpylhu, Mpyhlu, Mpyhus, Mpyhsu],
        (b'M', 7) => &[Mpyhuls, Mpyhslu, Mpyluhs, Mpylshu],
        (b'N', 4) => &[Norm],
        (b'O', 2) => &[Or],
        (b'S', 3) => &[Sub, Shl, Shr, Stw, Sth, Stb, Set],
        (b'S', 4) => &[Shru, Sub2, Subc, Sadd, Ssub, Sshl, Smpy],
        (b'S', 5) => &[Smpyh, Subab, Subah, Subaw],
        (b'S', 6) => &[Smpyhl, Smpylh],
        (b'X', 3) => &[Xor],
        _ => &[],
    }
}

fn named_among(ops: &[Op], name: &[u8]) -> Option<Op>
    ensures { result ≡ find (λ op. spells (mnemonic_of op) name.now) ops.now }
{
    ops.iter()
        .copied()
        .find(|op| spells(op.mnemonic().as_bytes(), name))
}

/// The operation of this name in capitals, as most are written.
#[inline(always)]
fn in_capitals_among(ops: &[Op], name: &[u8]) -> Option<Op>
    ensures { result ≡ find (λ op. bytes_eq (mnemonic_of op) name.now) ops.now }
{
    ops.iter()
        .copied()
        .find(|op| op.mnemonic().as_bytes() == name)
}

/// The operation of this name.
#[inline(always)]
fn operation_named(name: &[u8]) -> Option<Op>
    ensures { result ≡ operation_named name.now }
{
    match name {
        [] => None,
        [first, ..] => {
            match in_capitals_among(of_length(*first, name.len()), name) {
                Some(op) => Some(op),
                None => named_among(beginning_with(first.to_ascii_lowercase()), name),
            }
        }
    }
}

/// The mnemonic of this name that is no operation's.
#[tactic(auto, unfolding(crate::specs::Mnemonic::pseudo_named))]
fn pseudo_named(name: &[u8]) -> Option<Mnemonic>
    ensures { result ≡ pseudo_named name.now }
{
    if spells(b"MV", name) {
        Some(Mnemonic::Mv)
    } else if spells(b"NEG", name) {
        Some(Mnemonic::Neg)
    } else if spells(b"NOT", name) {
        Some(Mnemonic::Not)
    } else if spells(b"ZERO", name) {
        Some(Mnemonic::Zero)
    } else if spells(b"MVKL", name) {
        Some(Mnemonic::Mvkl)
    } else if spells(b"MVKH", name) {
        Some(Mnemonic::Mvkh)
    } else if spells(b"NOP", name) {
        Some(Mnemonic::Nop)
    } else {
        None
    }
}

/// The operation of this name, where the set has it.
#[inline(always)]
fn operation_in(isa: InstructionSet, name: &[u8]) -> Option<Op>
    ensures { result ≡ if_in isa (operation_named name.now) }
{
    let op = operation_named(name)?;
    if op.is_in(isa) { Some(op) } else { None }
}

/// The mnemonic of this name that the set has.
#[inline(always)]
#[tactic(auto, unfolding(crate::specs::Mnemonic::mnemonic_named))]
pub(crate) fn mnemonic_named(isa: InstructionSet, name: &[u8]) -> Option<Mnemonic>
    ensures { result ≡ mnemonic_named isa name.now }
{
    match operation_in(isa, name) {
        Some(op) => Some(Mnemonic::Operation(op)),
        None => pseudo_named(name),
    }
}

/// The operation that does the same with its two sources exchanged.
#[inline(always)]
fn exchanged(op: Op) -> Option<Op>
    ensures { result ≡ exchanged op }
{
    match op {
        Add | And | Or | Xor | Add2 | Cmpeq | Mpy | Mpyu | Mpyh | Mpyhu | Sadd | Smpy | Smpyh => {
            Some(op)
        }
        Cmpgt => Some(Cmplt),
        Cmplt => Some(Cmpgt),
        Cmpgtu => Some(Cmpltu),
        Cmpltu => Some(Cmpgtu),
        Mpyhl => Some(Mpylh),
        Mpylh => Some(Mpyhl),
        Mpyus => Some(Mpysu),
        Mpysu => Some(Mpyus),
        Smpyhl => Some(Smpylh),
        Smpylh => Some(Smpyhl),
        Mpylhu => Some(Mpyhlu),
        Mpyhlu => Some(Mpylhu),
        Mpyhus => Some(Mpyhsu),
        Mpyhsu => Some(Mpyhus),
        Mpyhuls => Some(Mpylshu),
        Mpylshu => Some(Mpyhuls),
        Mpyhslu => Some(Mpyluhs),
        Mpyluhs => Some(Mpyhslu),
        _ => None,
    }
}

/// The lower half of a constant's word.
fn low(k: i64) -> u16
    ensures { result ≡ lo (word k) }
{
    (word_of(k) & 0xffff) as u16
}

fn low_half(k: i64) -> i64
    ensures { result ≡ low_half k }
{
    i64::from(low(k))
}

fn signed_low_half(k: i64) -> i64
    ensures { result ≡ signed_low_half k }
{
    i64::from(low(k).cast_signed())
}

fn high_half(k: i64) -> i64
    ensures { result ≡ high_half k }
{
    i64::from(word_of(k) >> 16)
}

fn constant_to_front(op: Op, a: Reg, k: i64, d: Reg) -> (Op, Operands)
    ensures { result ≡ constant_to_front (exchanged op) op a k d }
{
    match exchanged(op) {
        Some(turned) => (turned, Operands::ConstantFirst(k, a, d)),
        None => (op, Operands::ConstantSecond(a, k, d)),
    }
}

#[inline(always)]
fn crossed_to_back(op: Op, a: Reg, b: Reg, d: Reg) -> (Op, Operands)
    ensures { result ≡ crossed_to_back (exchanged op) op a b d }
{
    match exchanged(op) {
        Some(turned) => {
            if a.side != d.side && b.side == d.side {
                (turned, Operands::Three(b, a, d))
            } else {
                (op, Operands::Three(a, b, d))
            }
        }
        None => (op, Operands::Three(a, b, d)),
    }
}

#[inline(always)]
#[tactic(auto, unfolding(crate::specs::Mnemonic::in_order))]
fn in_order(op: Op, operands: Operands) -> (Op, Operands)
    ensures { result ≡ in_order op operands }
{
    match operands {
        Operands::Three(a, b, d) => crossed_to_back(op, a, b, d),
        Operands::ConstantSecond(a, k, d) => constant_to_front(op, a, k, d),
        Operands::Constant(k, d) => {
            let constant = if matches!(op, Mvklh) { low_half(k) } else { k };
            (op, Operands::Constant(constant, d))
        }
        _ => (op, operands),
    }
}

fn zero_in(letter: Option<Letter>, d: Reg) -> (Op, Operands)
    ensures { result ≡ zero_in letter d }
{
    match letter {
        Some(Letter::L | Letter::D) => (Sub, Operands::Three(d, d, d)),
        _ => (Mvk, Operands::Constant(0, d)),
    }
}

impl Mnemonic {
    /// Whether a unit of this letter may be written behind the mnemonic.
    #[tactic(auto, unfolding(crate::specs::Mnemonic::stands_on))]
    pub fn stands_on(self, letter: Letter) -> bool
        ensures { result ≡ stands_on self letter }
    {
        match self {
            Mnemonic::Operation(op) => op.has_letter(letter),
            Mnemonic::Mv => Add.has_letter(letter),
            Mnemonic::Neg => letter == Letter::L || letter == Letter::S,
            Mnemonic::Not => Xor.has_letter(letter),
            Mnemonic::Zero => Sub.has_letter(letter),
            Mnemonic::Mvkl => Mvk.has_letter(letter),
            Mnemonic::Mvkh => Mvklh.has_letter(letter),
            Mnemonic::Nop => false,
        }
    }

    /// The operation and operands that the mnemonic with these operands stands for. `letter` is that of the written unit.
    #[inline(always)]
    #[tactic(auto, unfolding(crate::specs::Mnemonic::stands_for))]
    pub fn stands_for(self, letter: Option<Letter>, operands: Operands) -> Option<(Op, Operands)>
        ensures { result ≡ stands_for self letter operands }
    {
        match (self, operands) {
            (Mnemonic::Operation(op), _) => Some(in_order(op, operands)),
            (Mnemonic::Mv, Operands::Two(x, d)) => { Some((Add, Operands::ConstantFirst(0, x, d))) }
            (Mnemonic::Neg, Operands::Two(x, d)) => {
                Some((Sub, Operands::ConstantFirst(0, x, d)))
            }
            (Mnemonic::Not, Operands::Two(x, d)) => {
                Some((Xor, Operands::ConstantFirst(-1, x, d)))
            }
            (Mnemonic::Zero, Operands::Register(d)) => Some(zero_in(letter, d)),
            (Mnemonic::Mvkl, Operands::Constant(k, d)) => {
                Some((Mvk, Operands::Constant(signed_low_half(k), d)))
            }
            (Mnemonic::Mvkh, Operands::Constant(k, d)) => {
                Some((Mvklh, Operands::Constant(high_half(k), d)))
            }
            _ => None,
        }
    }
}
