//! Register files, registers, functional units and conditions.

ghost use Rattle.std.specs.Prelude.{◌<◌, ◌≡◌, ◌↔◌, IsTrue};

/// One of the two register files, and the half of the units that writes it (SPRU189, "Functional
/// Units").
#[derive(Clone, Copy, PartialEq, Eq, Debug)]
pub enum Side {
    /// A0 to A15, and .L1, .S1, .M1, .D1.
    A,
    /// B0 to B15, and .L2, .S2, .M2, .D2.
    B,
}

/// A register of 32 bits, `A0` to `A15` or `B0` to `B15`.
#[derive(Clone, Copy, PartialEq, Eq, Debug)]
pub struct Reg {
    /// The file that it lies in.
    pub side: Side,
    /// Its number in the file, 0 to 15.
    pub number: u8,
    pub ghost in_range: { number < 16 },
}

/// A0, which fills the unused entries of an array.
impl Default for Reg {
    fn default() -> Reg {
        Reg {
            side: Side::A,
            number: 0,
        }
    }
}

/// The kind of a functional unit.
#[derive(Clone, Copy, PartialEq, Eq, Debug)]
pub enum Letter {
    /// Arithmetic, logic and comparisons.
    L,
    /// Arithmetic, logic, shifts, constants and branches.
    S,
    /// Multiplies.
    M,
    /// Loads, stores and sums for addresses.
    D,
}

/// One of the eight functional units, as `.L1` or `.D2`.
#[derive(Clone, Copy, PartialEq, Eq, Debug)]
pub struct Unit {
    /// Its kind.
    pub letter: Letter,
    /// Its side, which is that of the register file that it writes.
    pub side: Side,
}

/// A condition `[r]`, which holds where `r` is not 0, or `[!r]`, which holds where it is 0 (SPRU189,
/// "Conditional Operations").
#[derive(Clone, Copy, PartialEq, Eq, Debug)]
pub struct Cond {
    /// The register that is tested: in an instruction A1, A2, B0, B1 or B2.
    pub reg: Reg,
    /// Whether it is to be 0.
    pub negated: bool,
}

impl Reg {
    ghost use Rattle.c62_op.specs.Register.{register_index};

    /// The index among A0 to A15, B0 to B15: 0 to 31.
    pub fn index(self) -> u8
        ensures index { result ≡ register_index self }
        ensures within { result < 32 }
    {
        16 * self.side as u8 + self.number
    }

    /// Whether both are one register.
    pub fn is_same(self, other: Reg) -> bool
        ensures { IsTrue result ↔ (self ≡ other) }
    {
        self == other
    }
}

impl Cond {
    /// Whether both test one register for the same.
    pub fn is_same(&self, other: &Cond) -> bool
        ensures { IsTrue result ↔ (self.now ≡ other.now) }
    {
        self.reg.is_same(other.reg) && self.negated == other.negated
    }
}

impl Unit {
    /// The units in the order in which a packet lists them.
    pub const ALL: [Unit; 8] = [
        Unit {
            letter: Letter::L,
            side: Side::A,
        },
        Unit {
            letter: Letter::S,
            side: Side::A,
        },
        Unit {
            letter: Letter::M,
            side: Side::A,
        },
        Unit {
            letter: Letter::D,
            side: Side::A,
        },
        Unit {
            letter: Letter::L,
            side: Side::B,
        },
        Unit {
            letter: Letter::S,
            side: Side::B,
        },
        Unit {
            letter: Letter::M,
            side: Side::B,
        },
        Unit {
            letter: Letter::D,
            side: Side::B,
        },
    ];
}

impl Reg {
    ghost use Rattle.c62_op.specs.Takes.{is_far_base};

    /// Whether this is B14 or B15, above which a load or store may have an offset of 15 bits.
    pub(crate) fn is_far_base(self) -> bool
        ensures { result ≡ is_far_base self }
    {
        self.side == Side::B && (self.number == 14 || self.number == 15)
    }
}

impl Letter {
    ghost use Rattle.c62_op.specs.declared.register.Side.TheVariants.{A as OnA};
    ghost use Rattle.c62_op.specs.Units.{index_on};

    /// The index of its unit of side A in [`Unit::ALL`].
    pub(crate) fn number(self) -> u8
        ensures number { result ≡ index_on self OnA }
        ensures small { result < 4 }
    {
        match self {
            Letter::L => 0,
            Letter::S => 1,
            Letter::M => 2,
            Letter::D => 3,
        }
    }
}

impl Unit {
    ghost use Rattle.std.specs.Prelude.{◌≡◌};
    ghost use Rattle.c62_op.specs.Units.{index_of};

    /// The index in [`Unit::ALL`].
    pub fn index(self) -> u8
        ensures { result ≡ index_of self }
    {
        match (self.letter, self.side) {
            (Letter::L, Side::A) => 0,
            (Letter::S, Side::A) => 1,
            (Letter::M, Side::A) => 2,
            (Letter::D, Side::A) => 3,
            (Letter::L, Side::B) => 4,
            (Letter::S, Side::B) => 5,
            (Letter::M, Side::B) => 6,
            (Letter::D, Side::B) => 7,
        }
    }
}
