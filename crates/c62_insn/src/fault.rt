//! Why operands make no instruction.

ghost use Rattle.std.specs.Prelude.{◌≡◌, IsTrue, Some, None};
ghost use Rattle.c62_op.specs.Shape.{accesses_or_branches, side_of};
ghost use Rattle.c62_op.specs.Source.{first_source, second_source, lies_across, is_first_fixed, is_second_fixed};
ghost use Rattle.c62_insn.specs.Fault.{form_name, fault_in, bad_condition, constant_out_of_range, two_crossed, has_misplaced, is_other_side, bad_side, no_unit};
ghost use Rattle.c62_op.specs.Units.{all_units};
ghost use Rattle.c62_op.specs.Table.{forms_of};

use c62_op::{Cond, InstructionSet, Op, Operands, Side, Unit, unit_takes_in};
use std::error::Error;
use std::fmt;

/// Why parts make no instruction (`docs/MACHINE.md`, "Form faults"). Where several faults apply,
/// [`Insn::new`](crate::Insn::new) says which one it gives.
#[derive(Clone, Copy, PartialEq, Eq, Debug)]
pub enum FormFault {
    /// No unit, or not the written one, takes these operands.
    NoUnit,
    /// A constant lies outside all ranges that the forms of the set give it.
    ConstantRange,
    /// Two sources lie on the side other than the destination's.
    TwoCrossed,
    /// A register that may not cross, or the written unit, lies on the wrong side.
    BadSide,
    /// The register of the condition is not A1, A2, B0, B1 or B2.
    BadCondition,
}

impl FormFault {
    /// Its name, as a fault of a line has it.
    pub fn name(self) -> &'static str
        ensures { result.now ≡ form_name self }
    {
        match self {
            FormFault::NoUnit => "NoUnit",
            FormFault::ConstantRange => "ConstantRange",
            FormFault::TwoCrossed => "TwoCrossed",
            FormFault::BadSide => "BadSide",
            FormFault::BadCondition => "BadCondition",
        }
    }
}

impl fmt::Display for FormFault {
    ghost output = { λ fault. Some (form_name fault) };

    fn fmt<W: fmt::Write>(&self, f: &mut fmt::Formatter<W>) -> fmt::Result {
        f.write_str(self.name())
    }
}

impl Error for FormFault {}

fn is_bad_condition(cond: Option<Cond>) -> bool
    ensures { result ≡ bad_condition cond }
{
    match cond {
        None => false,
        Some(Cond { reg, .. }) => match reg.side {
            Side::A => !(reg.number == 1 || reg.number == 2),
            Side::B => !(reg.number < 3),
        },
    }
}

fn is_out_of_range(set: InstructionSet, op: Op, operands: Operands) -> bool
    ensures { result ≡ constant_out_of_range set op operands }
{
    op.has_kind_in(set, operands) && !op.has_constants_in_range(set, operands)
}

fn is_two_crossed(op: Op, operands: Operands) -> bool
    ensures { result ≡ two_crossed op operands }
{
    !op.accesses_or_branches() && operands.is_first_across() && operands.is_second_across()
}

fn has_misplaced_register(set: InstructionSet, op: Op, operands: Operands) -> bool
    ensures { result ≡ has_misplaced set op operands }
{
    match operands {
        Operands::Access { base, offset, .. } => !offset.lies_on(base.side),
        Operands::Register(target) => target.side == Side::A && !op.lets_target_cross(set),
        Operands::Field {
            source,
            destination,
            ..
        } => source.side != destination.side,
        _ => {
            op.is_first_fixed() && operands.is_first_across()
                || op.is_second_fixed() && operands.is_second_across()
        }
    }
}

fn is_on_bad_side(set: InstructionSet, op: Op, operands: Operands, unit: Option<Unit>) -> bool
    ensures { result ≡ bad_side set op operands unit }
{
    has_misplaced_register(set, op, operands)
        || match (operands.side(), unit) {
            (Some(side), Some(unit)) => unit.side != side,
            _ => false,
        }
}

#[inline(always)]
fn has_no_unit(set: InstructionSet, op: Op, operands: Operands, unit: Option<Unit>) -> bool
    ensures { result ≡ no_unit set op operands unit }
{
    match unit {
        None => !op.is_taken(set, operands),
        Some(unit) => !unit_takes_in(set, op, operands, unit),
    }
}

/// The first fault of parts that have one.
fn first_fault(
    set: InstructionSet,
    op: Op,
    operands: Operands,
    cond: Option<Cond>,
    unit: Option<Unit>,
) -> Option<FormFault>
    ensures { result ≡ fault_in set op operands cond unit }
{
    if is_bad_condition(cond) {
        Some(FormFault::BadCondition)
    } else if is_out_of_range(set, op, operands) {
        Some(FormFault::ConstantRange)
    } else if is_two_crossed(op, operands) {
        Some(FormFault::TwoCrossed)
    } else if is_on_bad_side(set, op, operands, unit) {
        Some(FormFault::BadSide)
    } else if has_no_unit(set, op, operands, unit) {
        Some(FormFault::NoUnit)
    } else {
        None
    }
}

/// Whether parts have no fault. A unit takes operands only where they have none of the faults of constants and sides, so the
/// forms of the operation are looked through once.
fn is_faultless(
    set: InstructionSet,
    op: Op,
    operands: Operands,
    cond: Option<Cond>,
    unit: Option<Unit>,
) -> bool
    ensures { IsTrue result → fault_in set op operands cond unit ≡ None }
{
    !is_bad_condition(cond) && !has_no_unit(set, op, operands, unit)
}

/// The first fault of these parts of an instruction by the forms of the set, if they have one.
pub(crate) fn find_fault(
    set: InstructionSet,
    op: Op,
    operands: Operands,
    cond: Option<Cond>,
    unit: Option<Unit>,
) -> Option<FormFault>
    ensures { result ≡ fault_in set op operands cond unit }
{
    if is_faultless(set, op, operands, cond, unit) {
        None
    } else {
        first_fault(set, op, operands, cond, unit)
    }
}
