//! Operations and their operands.

ghost use Rattle.std.specs.Prelude.{◌≡◌, ◌↔◌, IsTrue};

use crate::register::{Reg, Side};
use crate::table::{Memory, row_of};

/// An operation, with what it gives modulo 2^32 (`docs/MACHINE.md`, "Instruction table"; SPRU189,
/// "Individual Instruction Descriptions").
#[derive(Clone, Copy, PartialEq, Eq, Debug)]
pub enum Op {
    /// `ADD`: the sum of the sources.
    Add,
    /// `SUB`: the first source minus the second.
    Sub,
    /// `AND`: the bits that both sources have.
    And,
    /// `OR`: the bits that a source has.
    Or,
    /// `XOR`: the bits that one source alone has.
    Xor,
    /// `ABS`: the absolute value; 2^31 - 1 of -2^31.
    Abs,
    /// `ADD2`: the sums of the halves, without carry between them.
    Add2,
    /// `SUB2`: the differences of the halves, without borrow between them.
    Sub2,
    /// `CMPEQ`: 1 where the sources are equal, else 0.
    Cmpeq,
    /// `CMPGT`: 1 where the first source is above the second as a signed number, else 0.
    Cmpgt,
    /// `CMPLT`: 1 where the first source is below the second as a signed number, else 0.
    Cmplt,
    /// `CMPGTU`: 1 where the first source is above the second as an unsigned number, else 0.
    Cmpgtu,
    /// `CMPLTU`: 1 where the first source is below the second as an unsigned number, else 0.
    Cmpltu,
    /// `SHL`: the first source, shifted left by the low six bits of the second.
    Shl,
    /// `SHR`: the first source, shifted right with its sign by the low six bits of the second.
    Shr,
    /// `SHRU`: the first source, shifted right by the low six bits of the second.
    Shru,
    /// `EXT`: shifted left by the first constant, then right with the sign by the second. In a register these are its bits
    /// 9 to 5 and 4 to 0.
    Ext,
    /// `EXTU`: the same without the sign.
    Extu,
    /// `MVK`: the constant.
    Mvk,
    /// `MVKLH`: the constant as the upper half; the destination keeps its lower one.
    Mvklh,
    /// `ADDK`: the destination plus the constant.
    Addk,
    /// `MPY`: the product of the low halves, both signed. A constant is taken as it is.
    Mpy,
    /// `MPYU`: the product of the low halves, both unsigned.
    Mpyu,
    /// `MPYUS`: the product of the low halves, the first unsigned, the second signed.
    Mpyus,
    /// `MPYSU`: the product of the low halves, the first signed, the second unsigned.
    Mpysu,
    /// `MPYH`: the product of the high halves, both signed.
    Mpyh,
    /// `MPYHU`: the product of the high halves, both unsigned.
    Mpyhu,
    /// `MPYHL`: the product of the first's high half and the second's low half, both signed.
    Mpyhl,
    /// `MPYLH`: the product of the first's low half and the second's high half, both signed.
    Mpylh,
    /// `ADDAB`: the first source plus the second.
    Addab,
    /// `ADDAH`: the first source plus twice the second.
    Addah,
    /// `ADDAW`: the first source plus four times the second.
    Addaw,
    /// `LDB`: loads a byte, with its sign.
    Ldb,
    /// `LDBU`: loads a byte.
    Ldbu,
    /// `LDH`: loads two bytes, with their sign.
    Ldh,
    /// `LDHU`: loads two bytes.
    Ldhu,
    /// `LDW`: loads a word.
    Ldw,
    /// `STB`: stores the low byte.
    Stb,
    /// `STH`: stores the low two bytes.
    Sth,
    /// `STW`: stores a word.
    Stw,
    /// `B`: a branch to a block or to the address in a register.
    B,
    /// `LMBD`: how many bits of the second source stand above its leftmost 1, where the first source is odd, and else above its
    /// leftmost 0; 32 where it has none.
    Lmbd,
    /// `NORM`: how many bits of the source below its sign repeat the sign.
    Norm,
    /// `SUBC`: a step of a division: twice the difference plus 1 where the second source is not above the first as an unsigned number,
    /// else twice the first.
    Subc,
    /// `SADD`: the sum of the sources as signed numbers, saturated.
    Sadd,
    /// `SSUB`: the first source minus the second as signed numbers, saturated.
    Ssub,
    /// `SET`: the bits from the first constant up to the second become 1. In a register these are its bits 9 to 5 and 4 to 0.
    Set,
    /// `CLR`: the same bits become 0.
    Clr,
    /// `SSHL`: the first source as a signed number, shifted left by the low five bits of the second, saturated.
    Sshl,
    /// `SMPY`: twice the product of the low halves, both signed, saturated.
    Smpy,
    /// `SMPYH`: twice the product of the high halves, both signed, saturated.
    Smpyh,
    /// `SMPYHL`: twice the product of the first's high half and the second's low half, both signed, saturated.
    Smpyhl,
    /// `SMPYLH`: twice the product of the first's low half and the second's high half, both signed, saturated.
    Smpylh,
    /// `MPYLHU`: the product of the first's low half and the second's high half, both unsigned.
    Mpylhu,
    /// `MPYHLU`: the product of the first's high half and the second's low half, both unsigned.
    Mpyhlu,
    /// `MPYHUS`: the product of the high halves, the first unsigned, the second signed.
    Mpyhus,
    /// `MPYHSU`: the product of the high halves, the first signed, the second unsigned.
    Mpyhsu,
    /// `MPYHULS`: the product of the first's high half, unsigned, and the second's low half, signed.
    Mpyhuls,
    /// `MPYHSLU`: the product of the first's high half, signed, and the second's low half, unsigned.
    Mpyhslu,
    /// `MPYLUHS`: the product of the first's low half, unsigned, and the second's high half, signed.
    Mpyluhs,
    /// `MPYLSHU`: the product of the first's low half, signed, and the second's high half, unsigned.
    Mpylshu,
    /// `SUBAB`: the first source minus the second.
    Subab,
    /// `SUBAH`: the first source minus twice the second.
    Subah,
    /// `SUBAW`: the first source minus four times the second.
    Subaw,
}

/// How an access forms its address from the base R and the offset k, which counts in units of the
/// access's size (`docs/MACHINE.md`, "Addresses"; SPRU189, "Addressing Modes").
#[derive(Clone, Copy, PartialEq, Eq, Debug)]
pub enum AddressForm {
    /// `*+R[k]`: above the base.
    Plus,
    /// `*-R[k]`: below the base.
    Minus,
    /// `*++R[k]`: above the base, which becomes the address.
    PreIncrement,
    /// `*--R[k]`: below the base, which becomes the address.
    PreDecrement,
    /// `*R++[k]`: at the base, which moves up.
    PostIncrement,
    /// `*R--[k]`: at the base, which moves down.
    PostDecrement,
}

/// The offset of an access, in units of the access's size.
#[derive(Clone, Copy, PartialEq, Eq, Debug)]
pub enum Offset {
    /// A constant: 0 to 31 in an instruction, and up to 32,767 above B14 and B15.
    Constant(i64),
    /// The value of a register, which lies on the base's side in an instruction.
    Register(Reg),
}

/// The operands of an instruction: registers and constants in the order of its text. Any may be
/// written down; [`Op::is_taken`] tells whether some unit takes them.
#[derive(Clone, Copy, PartialEq, Eq, Debug)]
pub enum Operands {
    /// Two sources and the destination.
    Three(Reg, Reg, Reg),
    /// A constant, a source and the destination. A constant of ADD stands here, also where it is written second.
    ConstantFirst(i64, Reg, Reg),
    /// A source, a constant and the destination.
    ConstantSecond(Reg, i64, Reg),
    /// A source and the destination.
    Two(Reg, Reg),
    /// A source, how far it is shifted left and then right, and the destination.
    Field {
        source: Reg,
        left: i64,
        right: i64,
        destination: Reg,
    },
    /// A constant and the destination.
    Constant(i64, Reg),
    /// The register that is loaded or stored, and the address.
    Access {
        register: Reg,
        base: Reg,
        form: AddressForm,
        offset: Offset,
    },
    /// The number of the block that a branch goes to.
    Block(u8),
    /// The register that holds a branch's target.
    Register(Reg),
}

impl Op {
    ghost use Rattle.c62_op.specs.Shape.{accesses_or_branches, delay_of, is_store, is_load, is_branch, reads_destination};
    ghost use Rattle.c62_op.specs.Table.{mnemonic_of};

    /// All 64 operations, in the order of `docs/MACHINE.md`, "Instruction table".
    pub const ALL: [Op; 64] = [
        Op::Add,
        Op::Sub,
        Op::And,
        Op::Or,
        Op::Xor,
        Op::Abs,
        Op::Add2,
        Op::Sub2,
        Op::Cmpeq,
        Op::Cmpgt,
        Op::Cmplt,
        Op::Cmpgtu,
        Op::Cmpltu,
        Op::Shl,
        Op::Shr,
        Op::Shru,
        Op::Ext,
        Op::Extu,
        Op::Mvk,
        Op::Mvklh,
        Op::Addk,
        Op::Mpy,
        Op::Mpyu,
        Op::Mpyus,
        Op::Mpysu,
        Op::Mpyh,
        Op::Mpyhu,
        Op::Mpyhl,
        Op::Mpylh,
        Op::Addab,
        Op::Addah,
        Op::Addaw,
        Op::Ldb,
        Op::Ldbu,
        Op::Ldh,
        Op::Ldhu,
        Op::Ldw,
        Op::Stb,
        Op::Sth,
        Op::Stw,
        Op::B,
        Op::Lmbd,
        Op::Norm,
        Op::Subc,
        Op::Sadd,
        Op::Ssub,
        Op::Set,
        Op::Clr,
        Op::Sshl,
        Op::Smpy,
        Op::Smpyh,
        Op::Smpyhl,
        Op::Smpylh,
        Op::Mpylhu,
        Op::Mpyhlu,
        Op::Mpyhus,
        Op::Mpyhsu,
        Op::Mpyhuls,
        Op::Mpyhslu,
        Op::Mpyluhs,
        Op::Mpylshu,
        Op::Subab,
        Op::Subah,
        Op::Subaw,
    ];

    /// The name in assembly text, in capitals.
    #[inline(always)]
    pub fn mnemonic(self) -> &'static str
        ensures { result.now ≡ mnemonic_of self }
    {
        row_of(self).name
    }

    /// The delay slots of the result, in cycles: 1 for a multiply, 4 for a load, 5 for a branch, else
    /// 0 (SPRU189, "Delay Slots").
    #[inline(always)]
    pub fn delay(self) -> u8
        ensures { result ≡ delay_of self }
    {
        row_of(self).delay
    }

    /// Whether this is `STB`, `STH` or `STW`.
    #[inline(always)]
    pub fn is_store(self) -> bool
        ensures { result ≡ is_store self }
    {
        matches!(row_of(self).memory, Memory::Stores(_))
    }

    /// Whether this is `LDB`, `LDBU`, `LDH`, `LDHU` or `LDW`.
    #[inline(always)]
    pub fn is_load(self) -> bool
        ensures { result ≡ is_load self }
    {
        matches!(row_of(self).memory, Memory::Loads(_))
    }

    /// Whether this is `B`, to a block or to a register.
    pub fn is_branch(self) -> bool
        ensures { result ≡ is_branch self }
    {
        matches!(self, Op::B)
    }

    /// Whether this is a load, a store or a branch.
    pub fn accesses_or_branches(self) -> bool
        ensures { result ≡ accesses_or_branches self }
    {
        self.is_load() || self.is_store() || self.is_branch()
    }

    /// Whether both are one operation.
    pub fn is_same(self, other: Op) -> bool
        ensures { IsTrue result ↔ (self ≡ other) }
    {
        self == other
    }

    /// Whether the destination is a source too.
    pub fn reads_destination(self) -> bool
        ensures { result ≡ reads_destination self }
    {
        row_of(self).destination_is_source
    }
}

impl AddressForm {
    ghost use Rattle.c62_op.specs.Shape.{changes_base};
    ghost use Rattle.c62_op.specs.Takes.{is_plus};

    /// Whether the address is above a base that stays.
    pub(crate) fn is_plus(self) -> bool
        ensures { result ≡ is_plus self }
    {
        matches!(self, AddressForm::Plus)
    }

    /// Whether the access writes its base: all forms but `*+R[k]` and `*-R[k]` (SPRU189, "Addressing Modes").
    pub fn changes_base(self) -> bool
        ensures { result ≡ changes_base self }
    {
        !matches!(self, AddressForm::Plus | AddressForm::Minus)
    }
}

impl Offset {
    /// Whether both are one constant or one register.
    pub fn is_same(&self, other: &Offset) -> bool
        ensures { IsTrue result ↔ (self.now ≡ other.now) }
    {
        match (*self, *other) {
            (Offset::Constant(a), Offset::Constant(b)) => a == b,
            (Offset::Register(a), Offset::Register(b)) => a.is_same(b),
            _ => false,
        }
    }
}

impl Operands {
    ghost use Rattle.c62_op.specs.Shape.{side_of};

    /// The side of the instructions that have these operands, where the operands decide it: the
    /// side of an access's base, side B for a branch to a register, and for others the
    /// destination's. `None` for a branch to a block, which a unit of either side takes.
    pub fn side(self) -> Option<Side>
        ensures { result ≡ side_of self }
    {
        match self {
            Operands::Three(_, _, d)
            | Operands::ConstantFirst(_, _, d)
            | Operands::ConstantSecond(_, _, d)
            | Operands::Two(_, d)
            | Operands::Field { destination: d, .. }
            | Operands::Constant(_, d) => Some(d.side),
            Operands::Access { base, .. } => Some(base.side),
            Operands::Block(_) => None,
            Operands::Register(_) => Some(Side::B),
        }
    }

    /// Whether both are of one kind and equal in all parts.
    pub fn is_same(&self, other: &Operands) -> bool
        ensures { IsTrue result ↔ (self.now ≡ other.now) }
    {
        match (*self, *other) {
            (Operands::Three(a, b, d), Operands::Three(e, f, g)) => a.is_same(e)
                && b.is_same(f)
                && d.is_same(g),
            (Operands::ConstantFirst(k, a, d), Operands::ConstantFirst(m, e, g)) => {
                k == m && a.is_same(e) && d.is_same(g)
            }
            (Operands::ConstantSecond(a, k, d), Operands::ConstantSecond(e, m, g)) => {
                a.is_same(e) && k == m && d.is_same(g)
            }
            (Operands::Two(a, d), Operands::Two(e, g)) => a.is_same(e) && d.is_same(g),
            (
                Operands::Field {
                    source: a,
                    left: k,
                    right: m,
                    destination: d,
                },
                Operands::Field {
                    source: e,
                    left: l,
                    right: n,
                    destination: g,
                },
            ) => { a.is_same(e) && k == l && m == n && d.is_same(g) }
            (Operands::Constant(k, d), Operands::Constant(m, g)) => k == m && d.is_same(g),
            (
                Operands::Access {
                    register: r,
                    base: b,
                    form: f,
                    offset: o,
                },
                Operands::Access {
                    register: s,
                    base: c,
                    form: g,
                    offset: p,
                },
            ) => { r.is_same(s) && b.is_same(c) && f == g && o.is_same(&p) }
            (Operands::Block(m), Operands::Block(n)) => m == n,
            (Operands::Register(a), Operands::Register(e)) => a.is_same(e),
            _ => false,
        }
    }
}
