//! The other side of a branch to a block.

ghost use Rattle.std.specs.Prelude.{◌≡◌, IfOk, IsTrue, MatchOption, ⊤};
ghost use Rattle.c62_read.specs.Block.{is_block};
ghost use Rattle.c62_depend.specs.Plan.{insns_of};
ghost use Rattle.c62_shortest.specs.Units.{IsWithUnit, AreWithUnits};

use c62_depend::Plan;
use c62_insn::{Letter, Side, Unit};
use c62_read::{Block, SerialInsn};
use std::alloc::{AllocError, Global};

/// The .S unit of the side that isn't this one.
fn other_unit(side: Side) -> Unit {
    Unit {
        letter: Letter::S,
        side: match side {
            Side::A => Side::B,
            Side::B => Side::A,
        },
    }
}

/// A branch to a block without a written unit, with this one written, on which it may stand. There is none for another
/// instruction.
fn with_unit(entry: &SerialInsn, unit: Unit) -> Option<SerialInsn>
    ensures { MatchOption result ⊤ (λ other. IsWithUnit entry.now.insn other.insn) }
{
    let insn = entry.insn;
    if insn.unit().is_some() || insn.operands().side().is_some() || !insn.may_stand(unit) {
        return None;
    }
    Some(SerialInsn {
        insn: insn.on_unit(unit),
        line: entry.line,
    })
}

fn plan_of(alloc: Global, insns: Vec<SerialInsn>) -> Result<Plan, AllocError>
    requires { IsTrue (is_block insns.items) }
    ensures { IfOk result (λ plan. plan.insns ≡ insns.items) }
{
    match Plan::new(alloc, Block::new(None, insns)) {
        Ok(plan) => Ok(plan),
        Err((_, error)) => Err(error),
    }
}

/// A plan with the same instructions, in which a unit of the other side is written for the branch, where that is one to a
/// block for which none is written.
///
/// # Errors
///
/// Where memory ran out.
pub(crate) fn on_other_side(alloc: Global, plan: &Plan) -> Result<Option<Plan>, AllocError>
    ensures { IfOk result (λ found. MatchOption found ⊤ (λ by. AreWithUnits (insns_of plan.now) (insns_of by))) }
{
    let Some(last) = plan.len().checked_sub(1) else {
        return Ok(None);
    };
    let own = plan.block().insns();
    let Some(branch) = with_unit(&own[usize::from(last)], other_unit(plan.side(last))) else {
        return Ok(None);
    };
    let mut insns = Vec::from_slice(alloc, own)?;
    insns[usize::from(last)] = branch;
    Ok(Some(plan_of(alloc, insns)?))
}
