//! What a plan keeps beside its block.

ghost use Rattle.std.specs.Prelude.{◌≡◌, ◌≤◌, List, length, IfOk};
ghost use Rattle.c62_insn.specs.declared.insn.Insn.{Insn};
ghost use Rattle.c62_read.specs.declared.limits.TheConstants.{MOST_INSTRUCTIONS};
ghost use Rattle.c62_pair.specs.Uses.{insns_in};

use crate::direct::all_links;
use crate::height::heights;
use crate::links::{Links, copy_lists};
use crate::side::{UnitChoice, unit_choices};
use crate::since::{Since, all_since};
use c62_pair::Uses;
use c62_read::SerialInsn;
use std::alloc::{AllocError, Global};

/// An entry for each instruction of a block.
#[derive(Drop)]
pub(crate) struct Tables {
    pub uses: Vec<Uses>,
    pub since: Vec<Since>,
    pub needs: Vec<Links>,
    pub followers: Vec<Links>,
    pub heights: Vec<u16>,
    pub choices: Vec<UnitChoice>,
}

/// What each of these instructions uses, in their order.
pub fn all_uses(alloc: Global, insns: &[SerialInsn]) -> Result<Vec<Uses>, AllocError>
    ensures { IfOk result (λ uses. insns_in uses.items ≡ unnumbered insns.now) }
{
    let mut uses = Vec::with_capacity(alloc, insns.len())?;
    for entry in insns {
        uses.push(Uses::new(entry.insn))?;
    }
    Ok(uses)
}

ghost use Rattle.c62_depend.specs.Plan.{unnumbered, AreTables};

impl Tables {
    /// The tables of these instructions.
    pub fn new(alloc: Global, insns: &[SerialInsn]) -> Result<Tables, AllocError>
        requires { length insns.now ≤ MOST_INSTRUCTIONS }
        ensures { IfOk result (λ tables. AreTables (unnumbered insns.now) tables) }
    {
        let uses = all_uses(alloc, insns)?;
        let since = all_since(alloc, &uses)?;
        let (needs, followers) = all_links(alloc, &uses, &since)?;
        let heights = heights(alloc, &uses, &followers)?;
        let choices = unit_choices(alloc, &uses)?;
        Ok(Tables {
            uses,
            since,
            needs,
            followers,
            heights,
            choices,
        })
    }

    /// Equal tables.
    pub fn copy(&self, alloc: Global) -> Result<Tables, AllocError>
        ensures { (block : List Insn) → AreTables block self.now → IfOk result (AreTables block) }
    {
        Ok(Tables {
            uses: Vec::from_slice(alloc, &self.uses)?,
            since: Vec::from_slice(alloc, &self.since)?,
            needs: copy_lists(alloc, &self.needs)?,
            followers: copy_lists(alloc, &self.followers)?,
            heights: Vec::from_slice(alloc, &self.heights)?,
            choices: Vec::from_slice(alloc, &self.choices)?,
        })
    }
}
