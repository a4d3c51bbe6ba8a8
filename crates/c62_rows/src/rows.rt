//! A text of packets by rows.

ghost use Rattle.std.specs.Prelude.{◌≡◌, ◌+◌, ◌<◌, ◌≤◌, ◌^◌, ◌∷◌, All, OnOk, IfSome, MatchOption, length};
ghost use Rattle.std.specs.List.{list_any, position, position_or_len};
ghost use Rattle.c62_insn.specs.Insn.{operands_of};
ghost use Rattle.c62_rules.specs.Capacity.{AreEnough, IsFirstBroken};
ghost use Rattle.c62_row.specs.Issued.{IsRowOf};
ghost use Rattle.c62_packet.specs.Packed.{issued, is_branching};
ghost use Rattle.c62_flight.specs.Text.{no_row};

use crate::fault::RowsCause;
use c62_insn::Operands;
use c62_packet::Placed;
use c62_row::{Row as Taken, Uses};
use c62_rules::CycleRule;
use std::alloc::{AllocError, Global};

/// A packet.
#[derive(Drop)]
pub struct Row {
    /// Its instructions in the order of units. The cycle in each is 0.
    pub insns: Vec<Placed>,
    /// How many cycles it takes behind its first.
    pub idle: u32,
}

/// The packets of a text, numbered from 0 in its order.
#[derive(Drop)]
pub struct Rows {
    pub rows: Vec<Row>,
    /// Of each label that branches and words name, in the order in which they do, the row that begins below it, or the number of
    /// rows where none does. A branch has the label's place here.
    pub aims: Vec<u32>,
}

ghost use Rattle.c62_rows.specs.Rows.{row_read, stands_behind, with_insn, with_idle, goes_to_label, are_two_branches, MayJoin, IsBreach};

/// The place of the first of these that stands on a later unit.
fn place_behind(insns: &[Placed], placed: &Placed) -> Option<usize>
    ensures place { result ≡ position (stands_behind placed.now) insns.now }
    ensures within { IfSome result (λ place. place < length insns.now) }
{
    insns
        .iter()
        .position(|other| placed.unit.index() < other.unit.index())
}

/// Where an instruction goes among these, which stand in the order of units.
#[tactic(auto, using(crate::proofs::Tables::place_is, crate::proofs::Tables::no_place_is))]
fn place_among(insns: &[Placed], placed: &Placed) -> usize
    ensures place { result ≡ position_or_len (stands_behind placed.now) insns.now }
    ensures within { result ≤ length insns.now }
{
    match place_behind(insns, placed) {
        Some(place) => place,
        None => insns.len(),
    }
}

impl Row {
    /// A row of one cycle without instructions.
    pub(crate) fn new(alloc: Global) -> Row
        ensures { row_read result ≡ no_row }
    {
        Row {
            insns: Vec::new(alloc),
            idle: 0,
        }
    }

    /// Adds an instruction in the order of units.
    pub(crate) fn put(&mut self, placed: Placed) -> Result<(), AllocError>
        ensures { OnOk result (row_read self.new ≡ with_insn placed (row_read self.old)) }
    {
        let place = place_among(&self.insns, &placed);
        self.insns.insert(place, placed)?;
        Ok(())
    }

    /// Takes so many cycles more.
    pub(crate) fn wait(&mut self, cycles: u32)
        requires { self.old.idle + cycles < 2 ^ 32 }
        ensures { row_read self.new ≡ with_idle cycles (row_read self.old) }
    {
        self.idle += cycles;
    }
}

fn is_branching(placed: &Placed) -> bool
    ensures { result ≡ is_branching placed.now }
{
    placed.insn.op().is_branch()
}

fn goes_to_label(placed: &Placed) -> bool
    ensures { result ≡ goes_to_label (operands_of placed.now.insn) }
{
    matches!(placed.insn.operands(), Operands::Block(_))
}

/// Whether these are branches that may not share a packet.
fn are_two_branches(one: &Placed, other: &Placed) -> bool
    ensures { result ≡ are_two_branches one.now other.now }
{
    let unconditional = one.insn.cond().is_none() && other.insn.cond().is_none();
    let to_labels = goes_to_label(one) && goes_to_label(other);
    is_branching(one) && is_branching(other) && (unconditional || to_labels)
}

/// What these instructions of a cycle take of it.
fn taken(insns: &[Placed]) -> Taken
    requires { All (λ p. p.cycle ≡ 0) insns.now }
    ensures { IsRowOf result 0 (issued insns.now) }
{
    let mut taken = Taken::new();
    for placed in insns {
        taken.add(&Uses::of(placed.insn, placed.unit));
    }
    taken
}

/// The first packet rule that an instruction breaks together with these in its cycle.
fn rule_against(above: &[Placed], placed: &Placed) -> Option<CycleRule>
    requires above { All (λ p. p.cycle ≡ 0) above.now }
    requires cycle { placed.now.cycle ≡ 0 }
    ensures { MatchOption result (AreEnough 0 (issued (placed.now ∷ above.now))) (λ rule. IsFirstBroken rule 0 (issued (placed.now ∷ above.now))) }
{
    taken(above).rule_against(&Uses::of(placed.insn, placed.unit))
}

fn has_other_branch(above: &[Placed], placed: &Placed) -> bool
    ensures { result ≡ list_any (are_two_branches placed.now) above.now }
{
    above.iter().any(|other| are_two_branches(placed, other))
}

/// What stands against an instruction that is to join these in their packet.
pub(crate) fn breach(above: &[Placed], placed: &Placed) -> Option<RowsCause>
    requires above { All (λ p. p.cycle ≡ 0) above.now }
    requires cycle { placed.now.cycle ≡ 0 }
    ensures { MatchOption result (MayJoin above.now placed.now) (IsBreach above.now placed.now) }
{
    if let Some(rule) = rule_against(above, placed) {
        return Some(RowsCause::Rule(rule));
    }
    if has_other_branch(above, placed) {
        return Some(RowsCause::TwoBranches);
    }
    None
}
