//! The forms of operations, each a unit's letter and a pattern of operands, and what they take.

use crate::operands::{AddressForm, Offset, Op, Operands};
use crate::register::{Letter, Reg, Side, Unit};
use crate::set::InstructionSet;
use crate::table::forms;

/// Which registers a source may be.
#[derive(Clone, Copy, PartialEq, Eq, Debug)]
pub(crate) enum Reach {
    /// A register of the unit's own side.
    Own,
    /// A register of either side, over the cross path where it lies on the other one.
    Crossing,
}

/// The constants from `low` to `high`, both among them.
#[derive(Clone, Copy, PartialEq, Eq, Debug)]
pub(crate) struct Range {
    pub low: i64,
    pub high: i64,
}

/// The operands of a form. A destination lies on the unit's side.
#[derive(Clone, Copy, PartialEq, Eq, Debug)]
pub(crate) enum Pattern {
    /// Two sources and the destination.
    TwoSources(Reach, Reach),
    /// A constant, a source and the destination.
    ConstantSource(Range, Reach),
    /// A source, a constant and the destination.
    SourceConstant(Reach, Range),
    /// A source and the destination.
    OneSource(Reach),
    /// An own source, two constants and the destination.
    SourceField(Range),
    /// A constant and the destination.
    ConstantAlone(Range),
    /// An access, whose base and offset register lie on the unit's side.
    Address(Range),
    /// An access above B14 or B15, by a constant, on the unit of side B.
    FarAddress(Range),
    /// A block.
    ToBlock,
    /// A register, on the unit of side B.
    ToRegister(Reach),
}

/// The sides whose units take operands by a form.
#[derive(Clone, Copy)]
pub(crate) struct Sides {
    pub a: bool,
    pub b: bool,
}

/// One form of an operation.
#[derive(Clone, Copy, PartialEq, Eq, Debug)]
pub(crate) struct Form {
    pub set: InstructionSet,
    pub letter: Letter,
    pub pattern: Pattern,
}

ghost use Rattle.std.specs.Prelude.{◌≡◌};

impl Reach {
    ghost use Rattle.c62_op.specs.Takes.{may_lie};

    /// Whether `reg` may be this source on a unit of `side`.
    pub(crate) fn admits(self, side: Side, reg: Reg) -> bool
        ensures { result ≡ may_lie self side reg }
    {
        match self {
            Reach::Own => reg.side == side,
            Reach::Crossing => true,
        }
    }
}

impl Range {
    ghost use Rattle.std.specs.Prelude.{◌&&◌};
    ghost use Rattle.c62_op.specs.Takes.{far_offset_in_range, in_range, is_far_access, same_side};

    /// Whether `constant` is in the range.
    pub(crate) fn contains(self, constant: i64) -> bool
        ensures { result ≡ in_range self constant }
    {
        self.low <= constant && constant <= self.high
    }

    /// Whether the access is above B14 or B15 by a constant of the range.
    fn holds_far(self, base: Reg, form: AddressForm, offset: Offset) -> bool
        ensures { result ≡ (is_far_access base form offset && far_offset_in_range self offset) }
    {
        match offset {
            Offset::Constant(k) => base.is_far_base() && form.is_plus() && self.contains(k),
            Offset::Register(_) => false,
        }
    }

    /// Whether both constants are in the range, and the source lies in the destination's file.
    fn holds_field(self, left: i64, right: i64, source: Reg, destination: Reg) -> bool
        ensures { result ≡ (in_range self left && in_range self right && same_side source.side destination.side) }
    {
        self.contains(left) && self.contains(right) && source.side == destination.side
    }
}

impl Offset {
    ghost use Rattle.std.specs.Prelude.{◌&&◌};
    ghost use Rattle.c62_op.specs.Takes.{is_far_access, offset_in_range, offset_on};

    /// Whether the offset is a constant, or a register of `side`.
    pub fn lies_on(self, side: Side) -> bool
        ensures { result ≡ offset_on side self }
    {
        match self {
            Offset::Constant(_) => true,
            Offset::Register(reg) => reg.side == side,
        }
    }

    /// Whether such an access is above B14 or B15 by a constant.
    fn is_far(self, base: Reg, form: AddressForm) -> bool
        ensures { result ≡ is_far_access base form self }
    {
        match self {
            Offset::Constant(_) => base.is_far_base() && form.is_plus(),
            Offset::Register(_) => false,
        }
    }

    /// Whether the offset is a constant of `range`, or a register of `side`.
    fn fits(self, range: Range, side: Side) -> bool
        ensures { result ≡ (offset_in_range range self && offset_on side self) }
    {
        match self {
            Offset::Constant(k) => range.contains(k),
            Offset::Register(reg) => reg.side == side,
        }
    }
}

impl Sides {
    ghost use Rattle.std.specs.Prelude.{◌&&◌, ◌+◌, ◌*◌, ◌<◌, if◌then◌else◌};
    ghost use Rattle.c62_op.specs.declared.register.Side.TheVariants.{A as OnA, B as OnB};
    ghost use Rattle.c62_op.specs.Takes.{same_side};

    /// This side alone where operands fit there, and else none.
    fn only(side: Side, fits: bool) -> Sides
        ensures a { result.a ≡ (same_side side OnA && fits) }
        ensures b { result.b ≡ (same_side side OnB && fits) }
    {
        match side {
            Side::A => Sides { a: fits, b: false },
            Side::B => Sides { a: false, b: fits },
        }
    }

    /// The bits of .L1 and .L2 where they are among these sides.
    fn bits(self) -> u8
        ensures bits { result ≡ (if self.a then 1 else 0) + 16 * (if self.b then 1 else 0) }
        ensures few { result < 18 }
    {
        match (self.a, self.b) {
            (false, false) => 0,
            (true, false) => 1,
            (false, true) => 16,
            (true, true) => 17,
        }
    }
}

impl Pattern {
    ghost use Rattle.std.specs.Prelude.{◌&&◌};
    ghost use Rattle.c62_op.specs.declared.register.Side.TheVariants.{A as OnA, B as OnB};
    ghost use Rattle.c62_op.specs.Takes.{same_kind, holds_constants, lets_target_cross, registers_fit};

    /// Whether `operands` are of this kind and number.
    pub(crate) fn has_kind(self, operands: Operands) -> bool
        ensures { result ≡ same_kind self operands }
    {
        match (self, operands) {
            (Pattern::TwoSources(_, _), Operands::Three(_, _, _)) => true,
            (Pattern::ConstantSource(_, _), Operands::ConstantFirst(_, _, _)) => true,
            (Pattern::SourceConstant(_, _), Operands::ConstantSecond(_, _, _)) => true,
            (Pattern::OneSource(_), Operands::Two(_, _)) => true,
            (Pattern::SourceField(_), Operands::Field { .. }) => true,
            (Pattern::ConstantAlone(_), Operands::Constant(_, _)) => true,
            (Pattern::Address(_), Operands::Access { .. }) => true,
            (
                Pattern::FarAddress(_),
                Operands::Access {
                    base,
                    form,
                    offset,
                    ..
                },
            ) => offset.is_far(base, form),
            (Pattern::ToBlock, Operands::Block(_)) => true,
            (Pattern::ToRegister(_), Operands::Register(_)) => true,
            _ => false,
        }
    }

    /// Whether the register that a branch goes to may come over the cross path.
    pub(crate) fn lets_target_cross(self) -> bool
        ensures { result ≡ lets_target_cross self }
    {
        matches!(self, Pattern::ToRegister(Reach::Crossing))
    }

    /// Whether besides the constants lie in the ranges.
    pub(crate) fn holds_constants(self, operands: Operands) -> bool
        ensures { result ≡ holds_constants self operands }
    {
        match (self, operands) {
            (Pattern::ConstantSource(range, _), Operands::ConstantFirst(k, _, _)) => range.contains(
                k,
            ),
            (Pattern::SourceConstant(_, range), Operands::ConstantSecond(_, k, _)) =>
                range.contains(k),
            (
                Pattern::SourceField(range),
                Operands::Field {
                    left: k,
                    right: m,
                    ..
                },
            ) => { range.contains(k) && range.contains(m) }
            (Pattern::ConstantAlone(range), Operands::Constant(k, _)) => range.contains(k),
            (
                Pattern::Address(range),
                Operands::Access {
                    offset: Offset::Constant(k),
                    ..
                },
            ) => range.contains(k),
            (
                Pattern::FarAddress(range),
                Operands::Access {
                    base,
                    form,
                    offset,
                    ..
                },
            ) => range.holds_far(base, form, offset),
            _ => self.has_kind(operands),
        }
    }

    /// The sides on which constants and registers are as the pattern wants them.
    #[inline(always)]
    #[tactic(auto, using(crate::proofs::TakerLemmas::field_on, crate::proofs::TakerLemmas::far_on, crate::proofs::TakerLemmas::never))]
    pub(crate) fn sides(self, operands: Operands) -> Sides
        ensures a { result.a ≡ (holds_constants self operands && registers_fit self OnA operands) }
        ensures b { result.b ≡ (holds_constants self operands && registers_fit self OnB operands) }
    {
        match (self, operands) {
            (Pattern::TwoSources(first, second), Operands::Three(a, b, d)) => {
                Sides::only(d.side, first.admits(d.side, a) && second.admits(d.side, b))
            }
            (Pattern::ConstantSource(range, reach), Operands::ConstantFirst(k, a, d)) => {
                Sides::only(d.side, range.contains(k) && reach.admits(d.side, a))
            }
            (Pattern::SourceConstant(reach, range), Operands::ConstantSecond(a, k, d)) => {
                Sides::only(d.side, range.contains(k) && reach.admits(d.side, a))
            }
            (Pattern::OneSource(reach), Operands::Two(a, d)) => {
                Sides::only(d.side, reach.admits(d.side, a))
            }
            (
                Pattern::SourceField(range),
                Operands::Field {
                    source: a,
                    left: k,
                    right: m,
                    destination: d,
                },
            ) => { Sides::only(d.side, range.holds_field(k, m, a, d)) }
            (Pattern::ConstantAlone(range), Operands::Constant(k, d)) => {
                Sides::only(d.side, range.contains(k))
            }
            (Pattern::Address(range), Operands::Access { base, offset, .. }) => {
                Sides::only(base.side, offset.fits(range, base.side))
            }
            (
                Pattern::FarAddress(range),
                Operands::Access {
                    base,
                    form,
                    offset,
                    ..
                },
            ) => Sides::only(Side::B, range.holds_far(base, form, offset)),
            (Pattern::ToBlock, Operands::Block(_)) => Sides { a: true, b: true },
            (Pattern::ToRegister(reach), Operands::Register(target)) => {
                Sides::only(Side::B, reach.admits(Side::B, target))
            }
            _ => Sides { a: false, b: false },
        }
    }
}

impl Form {
    ghost use Rattle.std.specs.Prelude.{◌==◌};
    ghost use Rattle.std.specs.Int.{bit_at};
    ghost use Rattle.c62_op.specs.declared.register.Unit.{Unit as FunctionalUnit};
    ghost use Rattle.c62_op.specs.Units.{index_of};
    ghost use Rattle.c62_op.specs.Takes.{takes_by, takes_somewhere};

    /// Whether some unit takes these operands by the form.
    #[inline(always)]
    pub(crate) fn is_taken_somewhere(&self, operands: Operands) -> bool
        ensures { result ≡ takes_somewhere self.now operands }
    {
        let sides = self.pattern.sides(operands);
        sides.a || sides.b
    }

    /// Whether `unit` takes these operands by the form. The letter is asked first, which tells most units apart.
    #[inline(always)]
    fn is_taken(&self, operands: Operands, unit: Unit) -> bool
        ensures { result ≡ takes_by self.now operands unit }
    {
        if self.letter != unit.letter {
            return false;
        }
        let sides = self.pattern.sides(operands);
        match unit.side {
            Side::A => sides.a,
            Side::B => sides.b,
        }
    }

    /// The units that take these operands by the form: of each the bit of its index.
    #[inline(always)]
    fn takers(&self, operands: Operands) -> u8
        ensures { (unit : FunctionalUnit) → (bit_at result (index_of unit) == 1) ≡ takes_by self.now operands unit }
    {
        let sides = self.pattern.sides(operands);
        sides.bits() << self.letter.number()
    }
}

ghost use Rattle.std.specs.Prelude.{◌==◌};
ghost use Rattle.std.specs.Int.{bit_at};
ghost use Rattle.c62_op.specs.declared.register.Unit.{Unit as FunctionalUnit};
ghost use Rattle.c62_op.specs.Units.{index_of};
ghost use Rattle.c62_op.specs.Takes.{takes, takes_in};

/// Whether `unit` takes these operands of `op` (SPRU189, "Mapping Between Instructions and Functional
/// Units").
pub fn unit_takes(op: Op, operands: Operands, unit: Unit) -> bool
    ensures { result ≡ takes op operands unit }
{
    forms(op).iter().any(|form| form.is_taken(operands, unit))
}

/// Whether `unit` takes them by a form of the set.
#[inline(always)]
pub fn unit_takes_in(set: InstructionSet, op: Op, operands: Operands, unit: Unit) -> bool
    ensures { result ≡ takes_in set op operands unit }
{
    forms(op).iter().any(|form| set.has_all_of(form.set) && form.is_taken(operands, unit))
}

/// All units that take these operands of `op`, found by one look at each of its forms: of each unit the bit of
/// [`Unit::index`].
pub fn units_taking(op: Op, operands: Operands) -> u8
    ensures { (unit : FunctionalUnit) → (bit_at result (index_of unit) == 1) ≡ takes op operands unit }
{
    let mut units = 0;
    for form in forms(op) {
        units |= form.takers(operands);
    }
    units
}
