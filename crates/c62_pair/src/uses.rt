//! What an instruction reads, writes and accesses.

ghost use Rattle.std.specs.Prelude.{◌≡◌, ◌≤◌, ◌&&◌, ◌||◌, ◌==◌, [], ◌∷◌, if◌then◌else◌, option_map, is_some};
ghost use Rattle.std.specs.List.{list_any};
ghost use Rattle.c62_op.specs.declared.register.Reg.{Reg as Register};
ghost use Rattle.c62_op.specs.Shape.{delay_of, is_load, is_store, is_branch};
ghost use Rattle.c62_insn.specs.Insn.{op_of, operands_of, cond_of, is_condition_on, reads_register};
ghost use Rattle.c62_rules.specs.Dependence.{range_of};
ghost use Rattle.c62_pair.specs.Conditions.{test_of, opposite_of};
ghost use Rattle.c62_pair.specs.Covered.{range_is};
ghost use Rattle.c62_pair.specs.RegSet.{reg_in};
ghost use Rattle.c62_pair.specs.Writes.{is_write_with, writes_with};

use crate::condition::{opposite_of, test_of};
use crate::covered::Covered;
use crate::reg_set::RegSet;
use c62_insn::{Cond, Insn, Reg};

/// An instruction, with what its dependences ask of it at hand.
#[derive(Clone, Copy)]
pub struct Uses {
    pub insn: Insn,
    /// The registers that are read, as operands or as the condition.
    pub reads: RegSet,
    /// The registers that are written with no delay.
    pub at_once: RegSet,
    /// The registers that are written with the delay of the instruction.
    pub results: RegSet,
    /// The registers that are written.
    pub written: RegSet,
    /// The registers that are read or written.
    pub used: RegSet,
    /// The number of its condition, and of the opposite one, which differ where there is none: one condition holds exactly
    /// where the other does not if the number of the one is the opposite of the other.
    pub test: u8,
    pub opposite: u8,
    /// The bytes that it accesses from a base at a constant offset, where it does.
    pub covered: Option<Covered>,
    pub delay: u8,
    pub loads: bool,
    pub stores: bool,
    pub branches: bool,
    pub ghost reads_are: { (reg : Register) → reg_in reads reg ≡ reads_register insn reg },
    pub ghost at_once_are: { (reg : Register) → reg_in at_once reg ≡ writes_with insn 0 reg },
    pub ghost results_are: { (reg : Register) → reg_in results reg ≡ writes_with insn (delay_of (op_of insn)) reg },
    pub ghost written_are: { (reg : Register) → reg_in written reg ≡ (reg_in at_once reg || reg_in results reg) },
    pub ghost used_are: { (reg : Register) → reg_in used reg ≡ (reg_in reads reg || reg_in written reg) },
    pub ghost test_is: { test ≡ test_of (cond_of insn) },
    pub ghost opposite_is: { opposite ≡ opposite_of (cond_of insn) },
    pub ghost covered_is: { option_map range_is covered ≡ range_of (op_of insn) (operands_of insn) },
    pub ghost delay_is: { delay ≡ delay_of (op_of insn) },
    pub ghost small: { delay ≤ 5 },
    pub ghost load_is: { loads ≡ is_load (op_of insn) },
    pub ghost store_is: { stores ≡ is_store (op_of insn) },
    pub ghost branch_is: { branches ≡ is_branch (op_of insn) },
}

/// The register of the condition, where there is one.
fn tested(cond: Option<Cond>) -> RegSet
    ensures { (reg : Register) → reg_in result reg ≡ is_condition_on reg cond }
{
    match cond {
        None => RegSet::new(),
        Some(cond) => RegSet::new().with(cond.reg),
    }
}

/// The registers that an instruction reads, as operands or as its condition.
fn reads(insn: &Insn) -> RegSet
    ensures { (reg : Register) → reg_in result reg ≡ reads_register insn.now reg }
{
    let mut set = tested(insn.cond());
    let reads = insn.reads();
    for reg in reads.as_slice() {
        set = set.with(*reg);
    }
    set
}

/// The set with the register of a write added, where the write has this delay.
fn with_write(set: RegSet, write: (Reg, u8), delay: u8) -> RegSet
    ensures { (reg : Register) → reg_in result reg ≡ (reg_in set reg || is_write_with delay reg write) }
{
    if write.1 == delay {
        set.with(write.0)
    } else {
        set
    }
}

/// The registers that an instruction writes with this delay.
fn written(insn: &Insn, delay: u8) -> RegSet
    ensures { (reg : Register) → reg_in result reg ≡ writes_with insn.now delay reg }
{
    let mut set = RegSet::new();
    let writes = insn.writes();
    for write in writes.as_slice() {
        set = with_write(set, *write, delay);
    }
    set
}

impl Uses {
    pub fn new(insn: Insn) -> Uses
        ensures { result.insn ≡ insn }
    {
        let op = insn.op();
        let delay = insn.delay();
        let reads = reads(&insn);
        let at_once = written(&insn, 0);
        let results = written(&insn, delay);
        let written = at_once.joined(results);
        let loads = op.is_load();
        let stores = op.is_store();
        let branches = op.is_branch();
        Uses {
            insn,
            reads,
            at_once,
            results,
            written,
            used: reads.joined(written),
            test: test_of(insn.cond()),
            opposite: opposite_of(insn.cond()),
            covered: Covered::by(insn),
            delay,
            loads,
            stores,
            branches,
        }
    }
}
