//! From the parts of an instruction, as a text has them, to the instruction.

ghost use Rattle.std.specs.Prelude.{◌≡◌, IfOk};
ghost use Rattle.c62_line.specs.Line.{unit_written, is_mismarked, with_mark, IsFaultOfText, parts_of, parts_read};

use crate::unit::{Mark, WrittenUnit};
use c62_insn::{Cond, FormFault, Insn, InstructionSet, Op, Operands, Unit};

/// Whether X is written where nothing crosses, or T with the other file's number.
#[inline(always)]
fn is_mismarked(written: Option<WrittenUnit>, operands: Operands) -> bool
    ensures { result ≡ is_mismarked written operands }
{
    match written {
        None => false,
        Some(written) => match written.mark {
            Mark::Plain => false,
            Mark::Cross => !operands.crosses_to(written.unit.side),
            Mark::Path(side) => match operands {
                Operands::Access { register: reg, .. } => reg.side != side,
                _ => true,
            },
        },
    }
}

fn unit_written(written: Option<WrittenUnit>) -> Option<Unit>
    ensures { result ≡ unit_written written }
{
    Some(written?.unit)
}

/// The instruction of these parts, or the first fault of its form.
#[inline(always)]
#[tactic(auto, unfolding(crate::specs::Line::text_fault))]
pub(crate) fn make(
    isa: InstructionSet,
    op: Op,
    operands: Operands,
    cond: Option<Cond>,
    written: Option<WrittenUnit>,
) -> Result<Insn, FormFault>
    ensures fault { IsFaultOfText isa op operands cond written result }
    ensures parts { IfOk result (λ insn. parts_of insn ≡ parts_read op operands cond written) }
{
    let made = Insn::new_in(isa, op, operands, cond, unit_written(written));
    if is_mismarked(written, operands) && matches!(made, Ok(_) | Err(FormFault::NoUnit)) {
        return Err(FormFault::BadSide);
    }
    made
}
