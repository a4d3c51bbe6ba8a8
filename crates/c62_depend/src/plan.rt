//! The plan of a block.

ghost use Rattle.std.specs.Prelude.{◌≡◌, ◌↔◌, ◌<◌, length, IfOk, IfErr};
ghost use Rattle.c62_depend.specs.Plan.{insns_of, AreTables, IsPlan};

use crate::latency::latency;
use crate::links::Link;
use crate::same::is_same_block;
use crate::tables::Tables;
use c62_insn::{Insn, Side, UnitSet};
use c62_read::Block;
use std::alloc::{AllocError, Global};
use std::marker::Model;

/// A block, with all that scheduling asks of it. Its instructions have numbers from 0, in their order; a call on a number
/// asks that it is below [`Plan::len`]. All calls but [`Plan::new`] and [`Plan::copy`] take no memory.
#[derive(Drop)]
pub struct Plan {
    block: Block,
    tables: Tables,
}

impl Model for Plan {
    ghost use Rattle.c62_read.specs.Block.{Serial};
    ghost use Rattle.c62_depend.specs.Plan.{insns_of, AreTables};

    ghost Value = { Serial };

    ghost view = { λ plan. plan.block };

    ghost invariant = { λ plan. AreTables (insns_of plan.block) plan.tables };
}

impl Plan {
    ghost use Rattle.std.specs.Prelude.{ℕ, slice_get, Some, IsTrue};
    ghost use Rattle.c62_op.specs.declared.register.Unit.{Unit as FunctionalUnit};
    ghost use Rattle.c62_insn.specs.UnitSet.{unit_in};
    ghost use Rattle.c62_rules.specs.Dependence.{Depends, IsLatency};
    ghost use Rattle.c62_depend.specs.Latency.{latency};
    ghost use Rattle.c62_depend.specs.Direct.{direct_needs, direct_followers};
    ghost use Rattle.c62_depend.specs.Height.{height};
    ghost use Rattle.c62_depend.specs.Side.{side, stands_on};

    /// The plan of a block.
    ///
    /// # Errors
    ///
    /// The block as it was, where memory ran out.
    pub fn new(alloc: Global, block: Block) -> Result<Plan, (Block, AllocError)>
        ensures plan { IfOk result (λ plan. plan ≡ block) }
        ensures back { IfErr result (λ back. back.0 ≡ block) }
    {
        match Tables::new(alloc, block.insns()) {
            Ok(tables) => Ok(Plan { block, tables }),
            Err(error) => Err((block, error)),
        }
    }

    /// The block.
    pub fn block(&self) -> &Block
        ensures { result.now ≡ self.now }
    {
        &self.block
    }

    /// How many instructions there are: at most 256. By this call a caller learns what holds of every plan: a branch stands
    /// only as the last; latencies go from a lower number to a higher one and are -5 to 5; a height is at most five
    /// cycles for each instruction; each instruction has a unit, and only units of its side.
    pub fn len(&self) -> u16
        ensures len { result ≡ length self.now.insns }
        ensures sound { IsPlan (insns_of self.now) }
    {
        self.block.insns().len() as u16
    }

    /// Instruction `i`.
    pub fn insn(&self, i: u16) -> Insn
        requires { i < length self.now.insns }
        ensures { slice_get (insns_of self.now) i ≡ Some result }
    {
        let tables = &self.tables;
        tables.uses[i as usize].insn
    }

    /// The side of instruction `i`: of a load or store that of its base; of a branch to a register B; of a branch to a
    /// block that of the written unit, else the side with fewer other instructions of the block, for a tie B; of any
    /// other that of its destination.
    pub fn side(&self, i: u16) -> Side
        requires { i < length self.now.insns }
        ensures { result ≡ side (insns_of self.now) i }
    {
        let tables = &self.tables;
        tables.choices[i as usize].side
    }

    /// The units that instruction `i` may stand on: those of its side that take it, and only the written one where one
    /// is written.
    pub fn units(&self, i: u16) -> UnitSet
        requires { i < length self.now.insns }
        ensures { (unit : FunctionalUnit) → unit_in result unit ≡ stands_on (insns_of self.now) i unit }
    {
        let tables = &self.tables;
        tables.choices[i as usize].units
    }

    /// The height of instruction `i`, in cycles: the greatest of its delay and, over the instructions that depend on it,
    /// the latency to that one plus its height.
    pub fn height(&self, i: u16) -> u16
        requires { i < length self.now.insns }
        ensures { result ≡ height (insns_of self.now) i }
    {
        let tables = &self.tables;
        tables.heights[i as usize]
    }

    /// What instruction `j` depends on directly, by rising numbers, each with the latency from it. All other dependences
    /// are implied by chains of direct ones ([`direct_ones_bind`](crate::laws::direct_ones_bind)).
    pub fn needs(&self, j: u16) -> &[Link]
        requires { j < length self.now.insns }
        ensures { result.now ≡ direct_needs (insns_of self.now) j }
    {
        let tables = &self.tables;
        tables.needs[j as usize].as_slice()
    }

    /// What depends directly on instruction `i`, by rising numbers, each with the latency to it.
    pub fn followers(&self, i: u16) -> &[Link]
        requires { i < length self.now.insns }
        ensures { result.now ≡ direct_followers (insns_of self.now) i }
    {
        let tables = &self.tables;
        tables.followers[i as usize].as_slice()
    }

    /// By how much the cycle of instruction `j` must at least exceed that of instruction `i`: the greatest bound of the
    /// cases of dependence that apply (`docs/MACHINE.md`, "Dependences"), which may be negative. `None` where `i` does
    /// not stand before `j`, or no case applies.
    pub fn latency(&self, i: u16, j: u16) -> Option<i32>
        requires first { i < length self.now.insns }
        requires second { j < length self.now.insns }
        ensures greatest { IsLatency (insns_of self.now) i j result }
        ensures latency { result ≡ latency (insns_of self.now) i j }
    {
        if i < j {
            let tables = &self.tables;
            latency(&tables.uses, &tables.since, i as usize, j as usize)
        } else {
            None
        }
    }

    /// Whether instruction `j` depends on instruction `i`: it stands behind it, and some case of dependence applies.
    pub fn depends(&self, i: u16, j: u16) -> bool
        requires first { i < length self.now.insns }
        requires second { j < length self.now.insns }
        ensures { IsTrue result ↔ Depends (insns_of self.now) i j }
    {
        self.latency(i, j).is_some()
    }

    /// An equal plan.
    ///
    /// # Errors
    ///
    /// Where memory ran out.
    pub fn copy(&self, alloc: Global) -> Result<Plan, AllocError>
        ensures { IfOk result (λ plan. plan ≡ self.now) }
    {
        let block = self.block.copy(alloc)?;
        let tables = self.tables.copy(alloc)?;
        Ok(Plan { block, tables })
    }

    /// Whether both are plans of one block, with the same label, instructions and lines.
    pub fn same(&self, other: &Plan) -> bool
        ensures { IsTrue result ↔ (self.now ≡ other.now) }
    {
        is_same_block(&self.block, &other.block)
    }
}
