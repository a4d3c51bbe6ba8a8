//! The side of an instruction, and the units that it may stand on.

ghost use Rattle.std.specs.Prelude.{◌≡◌, ◌<◌, length, IfOk};
ghost use Rattle.c62_op.specs.Shape.{side_of};
ghost use Rattle.c62_insn.specs.Insn.{operands_of};
ghost use Rattle.c62_pair.specs.Uses.{insns_in};
ghost use Rattle.c62_depend.specs.Side.{is_side, count_on, branch_side, side_in};
ghost use Rattle.c62_depend.specs.UnitChoices.{IsUnitChoice, AreUnitChoices};

use c62_insn::{Insn, Side, Unit, UnitSet};
use c62_pair::Uses;
use std::alloc::{AllocError, Global};

fn is_on(uses: &Uses, side: Side) -> bool
    ensures { result ≡ is_side side (side_of (operands_of uses.now.insn)) }
{
    match uses.insn.operands().side() {
        Some(other) => other == side,
        None => false,
    }
}

/// How many instructions stand on a side by their operands.
fn count_on(uses: &[Uses], side: Side) -> usize
    ensures { result ≡ count_on side (insns_in uses.now) }
{
    uses.iter().filter(|one| is_on(one, side)).count()
}

/// The side of a branch to a block.
fn branch_side(uses: &[Uses], unit: Option<Unit>) -> Side
    ensures { result ≡ branch_side (insns_in uses.now) unit }
{
    match unit {
        Some(unit) => unit.side,
        None => {
            if count_on(uses, Side::A) < count_on(uses, Side::B) {
                Side::A
            } else {
                Side::B
            }
        }
    }
}

/// The side of an instruction of the block.
fn side(uses: &[Uses], insn: Insn) -> Side
    ensures { result ≡ side_in (insns_in uses.now) insn }
{
    match insn.operands().side() {
        Some(side) => side,
        None => branch_side(uses, insn.unit()),
    }
}

/// The side of an instruction, and the units of it on which the instruction may stand.
#[derive(Clone, Copy)]
pub(crate) struct UnitChoice {
    pub side: Side,
    pub units: UnitSet,
}

impl UnitChoice {
    /// The side and the units of instruction `i`.
    pub fn new(uses: &[Uses], i: usize) -> UnitChoice
        requires { i < length uses.now }
        ensures { IsUnitChoice (insns_in uses.now) i result }
    {
        let insn = uses[i].insn;
        let side = side(uses, insn);
        UnitChoice {
            side,
            units: insn.units_on(side),
        }
    }
}

/// The side and the units of each instruction.
#[tactic(auto, using(crate::proofs::Units::choices_more))]
pub(crate) fn unit_choices(alloc: Global, uses: &[Uses]) -> Result<Vec<UnitChoice>, AllocError>
    ensures { IfOk result (λ choices. AreUnitChoices (insns_in uses.now) (length uses.now) choices.items) }
{
    let mut choices = Vec::with_capacity(alloc, uses.len())?;
    for i in 0..uses.len() {
        choices.push(UnitChoice::new(uses, i))?;
    }
    Ok(choices)
}
