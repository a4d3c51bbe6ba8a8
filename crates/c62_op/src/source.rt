//! Which sources may not come over the cross path, and which lie across.

ghost use Rattle.std.specs.Prelude.{◌≡◌};
ghost use Rattle.c62_op.specs.Shape.{side_of};
ghost use Rattle.c62_op.specs.Source.{first_source, second_source, lies_across, is_first_fixed, is_second_fixed, target_may_cross};

use crate::operands::{Op, Operands};
use crate::set::InstructionSet;
use crate::table::{forms, row_of};

impl Op {
    /// Whether no form lets the first source cross.
    #[inline(always)]
    pub fn is_first_fixed(self) -> bool
        ensures { result ≡ is_first_fixed self }
    {
        row_of(self).first_is_fixed
    }

    /// Whether no form lets the second source cross.
    #[inline(always)]
    pub fn is_second_fixed(self) -> bool
        ensures { result ≡ is_second_fixed self }
    {
        row_of(self).second_is_fixed
    }

    /// Whether some form of the set lets the register that a branch goes to come over the cross path.
    pub fn lets_target_cross(self, set: InstructionSet) -> bool
        ensures { result ≡ target_may_cross set self }
    {
        forms(self).iter().any(|form| set.has_all_of(form.set) && form.pattern.lets_target_cross())
    }
}

impl Operands {
    /// Whether the first source is a register on the other side than the instruction.
    pub fn is_first_across(self) -> bool
        ensures { result ≡ lies_across (side_of self) (first_source self) }
    {
        match self {
            Operands::Three(a, _, d)
            | Operands::ConstantSecond(a, _, d)
            | Operands::Two(a, d)
            | Operands::Field {
                source: a,
                destination: d,
                ..
            } => a.side != d.side,
            _ => false,
        }
    }

    /// Whether the second source is a register on the other side than the instruction.
    pub fn is_second_across(self) -> bool
        ensures { result ≡ lies_across (side_of self) (second_source self) }
    {
        match self {
            Operands::Three(_, b, d) | Operands::ConstantFirst(_, b, d) => b.side != d.side,
            _ => false,
        }
    }
}
