//! What is asked of an operation and of operands before they make an instruction.

ghost use Rattle.std.specs.Prelude.{◌≡◌, ◌&&◌};
ghost use Rattle.std.specs.List.{list_any};
ghost use Rattle.c62_op.specs.Shape.{crosses_to};
ghost use Rattle.c62_op.specs.Table.{forms_of};
ghost use Rattle.c62_op.specs.Takes.{has_kind, has_kind_in, has_letter, in_some_range_in, has_all_of, is_in, takes_in, takes_somewhere};
ghost use Rattle.c62_op.specs.Units.{all_units};

use crate::operands::{Op, Operands};
use crate::register::{Letter, Side};
use crate::set::InstructionSet;
use crate::table::forms;

impl Op {
    /// Whether the set has some form of the operation.
    #[inline(always)]
    pub fn is_in(self, set: InstructionSet) -> bool
        ensures { result ≡ is_in set self }
    {
        forms(self).iter().any(|form| set.has_all_of(form.set))
    }

    /// Whether some form of the operation has operands of this kind and number, with constants of any value.
    pub fn has_kind(self, operands: Operands) -> bool
        ensures { result ≡ has_kind self operands }
    {
        forms(self)
            .iter()
            .any(|form| form.pattern.has_kind(operands))
    }

    /// Whether some form of the set does.
    pub fn has_kind_in(self, set: InstructionSet, operands: Operands) -> bool
        ensures { result ≡ has_kind_in set self operands }
    {
        forms(self).iter().any(|form| set.has_all_of(form.set) && form.pattern.has_kind(operands))
    }

    /// Whether some form of the set has operands of this kind and number, with constants of these values.
    pub fn has_constants_in_range(self, set: InstructionSet, operands: Operands) -> bool
        ensures { result ≡ in_some_range_in set self operands }
    {
        forms(self).iter().any(|form| set.has_all_of(form.set)
            && form.pattern.holds_constants(operands))
    }

    /// Whether some form of the set takes these operands on a side.
    fn has_taking_form(self, set: InstructionSet, operands: Operands) -> bool
        ensures { result ≡ list_any (λ form. has_all_of set form.set && takes_somewhere form operands) (forms_of self) }
    {
        forms(self).iter().any(|form| set.has_all_of(form.set) && form.is_taken_somewhere(operands))
    }

    /// Whether some unit takes these operands of the operation by a form of the set.
    pub fn is_taken(self, set: InstructionSet, operands: Operands) -> bool
        ensures { result ≡ list_any (takes_in set self operands) all_units }
    {
        self.has_taking_form(set, operands)
    }

    /// Whether some form of the operation stands on units of this letter.
    pub fn has_letter(self, letter: Letter) -> bool
        ensures { result ≡ has_letter self letter }
    {
        forms(self).iter().any(|form| form.letter == letter)
    }
}

impl Operands {
    /// Whether a source comes over the cross path to a unit of this side.
    pub fn crosses_to(self, side: Side) -> bool
        ensures { result ≡ crosses_to side self }
    {
        match self {
            Operands::Three(a, b, _) => a.side != side || b.side != side,
            Operands::ConstantFirst(_, a, _)
            | Operands::ConstantSecond(a, _, _)
            | Operands::Two(a, _)
            | Operands::Field { source: a, .. }
            | Operands::Register(a) => a.side != side,
            _ => false,
        }
    }
}
