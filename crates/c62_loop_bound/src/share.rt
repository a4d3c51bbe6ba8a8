//! What a cycle has so many of, and how much of it a pass of a kernel takes (docs/SCHEDULING.md, "Pipelined loops"; SPRU189,
//! "Resource Constraints").

ghost use Rattle.std.specs.Prelude.{◌≡◌, ◌<◌, ◌≤◌, ◌*◌, ◌||◌, ℕ, List, not, length, count_by, sum_by};
ghost use Rattle.std.specs.List.{list_all};
ghost use Rattle.c62_op.specs.Units.{all_units};
ghost use Rattle.c62_op.specs.Shape.{side_of};
ghost use Rattle.c62_insn.specs.declared.insn.Insn.{Insn as AnInsn};
ghost use Rattle.c62_insn.specs.Insn.{op_of, operands_of, reads_count};
ghost use Rattle.c62_insn.specs.UnitSet.{unit_in};
ghost use Rattle.c62_read.specs.declared.limits.TheConstants.{MOST_INSTRUCTIONS};
ghost use Rattle.c62_pair.specs.Uses.{insns_in};
ghost use Rattle.c62_loop_bound.specs.Share.{takers_of, takers_of_branch, takers_of_step, are_within, is_side, crosses_on, goes_over, width_of, taken_of, cycles_of};

use c62_insn::{Insn, Letter, Reg, Side, Unit, UnitSet};
use c62_pair::Uses;
use c62_read::MOST_INSTRUCTIONS;

/// What a cycle has so many of.
#[derive(Clone, Copy)]
pub enum Share {
    /// These functional units.
    Units(UnitSet),
    /// The cross path to the units of a side.
    CrossPath(Side),
    /// The data path of a register file.
    DataPath(Side),
    /// Reads of a register.
    Reads(Reg),
}

/// Whether all of these units are of a set.
fn are_within(set: UnitSet, units: UnitSet) -> bool
    ensures { result ≡ list_all (λ unit. not (unit_in units unit) || unit_in set unit) all_units }
{
    Unit::ALL
        .iter()
        .all(|unit| !units.has(*unit) || set.has(*unit))
}

/// Whether none but units of a set take an instruction.
fn is_confined(set: UnitSet, insn: &Insn) -> bool
    ensures { result ≡ are_within set (takers_of insn.now) }
{
    are_within(set, insn.units())
}

/// The unit of this letter on this side.
fn unit(letter: Letter, side: Side) -> Unit
    ensures { result ≡ record { letter = letter; side = side } }
{
    Unit { letter, side }
}

/// Whether none but units of a set take a branch to a label.
fn holds_branch(set: UnitSet) -> bool
    ensures { result ≡ are_within set takers_of_branch }
{
    set.has(unit(Letter::S, Side::A)) && set.has(unit(Letter::S, Side::B))
}

/// Whether none but units of a set take a step of the counter.
fn holds_step(set: UnitSet, counter: Reg) -> bool
    ensures { result ≡ are_within set (takers_of_step counter) }
{
    let side = counter.side;
    set.has(unit(Letter::L, side))
        && set.has(unit(Letter::S, side))
        && set.has(unit(Letter::D, side))
}

/// How many of these instructions none but units of a set take.
fn confined(set: UnitSet, work: &[Uses]) -> usize
    ensures count { result ≡ count_by (λ insn. are_within set (takers_of insn)) (insns_in work.now) }
    ensures few { result ≤ length work.now }
{
    work.iter()
        .filter(|uses| is_confined(set, &uses.insn))
        .count()
}

/// Whether this is a side, and which.
fn is_side(side: Side, other: Option<Side>) -> bool
    ensures { result ≡ is_side side other }
{
    match other {
        None => false,
        Some(other) => other == side,
    }
}

/// Whether a source comes over the cross path to the units of this side, where the destination lies.
fn crosses_on(side: Side, insn: &Insn) -> bool
    ensures { result ≡ crosses_on side insn.now }
{
    let operands = insn.operands();
    is_side(side, operands.side()) && operands.crosses_to(side)
}

/// Whether an access goes over the data path of this side.
fn goes_over(side: Side, insn: &Insn) -> bool
    ensures { result ≡ goes_over side insn.now }
{
    is_side(side, insn.data_path())
}

/// How many of these instructions cross to this side.
fn crossing(side: Side, work: &[Uses]) -> usize
    ensures count { result ≡ count_by (crosses_on side) (insns_in work.now) }
    ensures few { result ≤ length work.now }
{
    work.iter()
        .filter(|uses| crosses_on(side, &uses.insn))
        .count()
}

/// How many of them go over the data path of this side.
fn accesses(side: Side, work: &[Uses]) -> usize
    ensures count { result ≡ count_by (goes_over side) (insns_in work.now) }
    ensures few { result ≤ length work.now }
{
    work.iter()
        .filter(|uses| goes_over(side, &uses.insn))
        .count()
}

/// How often an instruction reads a register.
fn reads_of(reg: Reg, insn: &Insn) -> usize
    ensures count { result ≡ reads_count reg insn.now }
    ensures few { result ≤ 3 }
{
    let reads = insn.reads();
    reads.as_slice().iter().filter(|read| **read == reg).count()
}

/// How often these instructions read it.
fn reads(reg: Reg, work: &[Uses]) -> usize
    requires { length work.now ≤ MOST_INSTRUCTIONS }
    ensures count { result ≡ sum_by (reads_count reg) (insns_in work.now) }
    ensures few { result ≤ 3 * MOST_INSTRUCTIONS }
{
    let mut sum = 0usize;
    for uses in work {
        sum += reads_of(reg, &uses.insn);
    }
    sum
}

/// How many units a set has.
fn units_in(set: UnitSet) -> usize
    ensures { result ≡ count_by (unit_in set) all_units }
{
    Unit::ALL.iter().filter(|unit| set.has(**unit)).count()
}

impl Share {
    /// How much of it there is in a cycle.
    pub fn width(self) -> usize
        ensures { result ≡ width_of self }
    {
        match self {
            Share::Units(set) => units_in(set),
            Share::CrossPath(_) | Share::DataPath(_) => 1,
            Share::Reads(_) => 4,
        }
    }

    /// How much of it a pass takes at least that issues a branch, a step of the counter, and this work.
    pub fn taken(self, counter: Reg, work: &[Uses]) -> usize
        requires { length work.now ≤ MOST_INSTRUCTIONS }
        ensures taken { result ≡ taken_of counter (insns_in work.now) self }
        ensures few { result ≤ 3 * MOST_INSTRUCTIONS }
    {
        match self {
            Share::Units(set) => {
                usize::from(holds_branch(set))
                    + usize::from(holds_step(set, counter))
                    + confined(set, work)
            }
            Share::CrossPath(side) => crossing(side, work),
            Share::DataPath(side) => accesses(side, work),
            Share::Reads(reg) => reads(reg, work),
        }
    }

    /// The cycles that this takes.
    pub fn cycles(self, counter: Reg, work: &[Uses]) -> usize
        requires few { length work.now ≤ MOST_INSTRUCTIONS }
        requires some { 0 < width_of self }
        ensures cycles { result ≡ cycles_of counter (insns_in work.now) self }
        ensures few { result ≤ 3 * MOST_INSTRUCTIONS }
    {
        self.taken(counter, work).div_ceil(self.width())
    }
}
