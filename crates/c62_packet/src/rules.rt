//! The first packet rule that placed instructions break.

ghost use Rattle.std.specs.Prelude.{◌≡◌, ◌+◌, ◌<◌, ◌≤◌, All, length};
ghost use Rattle.std.specs.List.{list_any};
ghost use Rattle.c62_rules.specs.Dependence.{are_opposite};
ghost use Rattle.c62_read.specs.declared.limits.TheConstants.{MOST_INSTRUCTIONS};
ghost use Rattle.c62_packet.specs.declared.limits.TheConstants.{MOST_CYCLES};
ghost use Rattle.c62_packet.specs.Packed.{IsInListingOrder};
ghost use Rattle.c62_packet.specs.Fault.{rank_of, FindsBroken};
ghost use Rattle.c62_packet.specs.Clash.{is_landing, lands, is_between, lands_between, are_excused, clashes, is_met, landing_beside, IsBrokenBeside, is_before, earlier};
ghost use Rattle.c62_packet.specs.Taken.{IsTakenBy};

use crate::fault::PacketRule;
use crate::placed::Placed;
use crate::taken::Taken;
use c62_insn::{Cond, Reg};
use c62_row::Uses;

/// Whether a write that is issued in one cycle lands in this register in another.
fn is_landing(write: (Reg, u8), from: u16, reg: Reg, cycle: u32) -> bool
    ensures { result ≡ is_landing from reg cycle write }
{
    write.0 == reg && u32::from(from) + u32::from(write.1) == cycle
}

/// Whether a write of the instruction lands in this register in this cycle. None lands later than its delay slots last.
fn lands(placed: &Placed, reg: Reg, cycle: u32) -> bool
    ensures { result ≡ lands reg cycle placed.now }
{
    if u32::from(placed.cycle) + u32::from(placed.insn.delay()) < cycle {
        return false;
    }
    let writes = placed.insn.writes();
    writes
        .as_slice()
        .iter()
        .any(|write| is_landing(*write, placed.cycle, reg, cycle))
}

/// Whether a write lands in this register from one cycle on and before another.
fn is_between(write: (Reg, u8), from: u16, to: u16, reg: Reg, cycle: u16) -> bool
    ensures { result ≡ is_between from to reg cycle write }
{
    let landing = u32::from(cycle) + u32::from(write.1);
    write.0 == reg && (u32::from(from) <= landing && landing < u32::from(to))
}

/// The same of a write of an instruction.
fn lands_between(placed: &Placed, from: u16, to: u16, reg: Reg) -> bool
    ensures { result ≡ lands_between from to reg placed.now }
{
    let writes = placed.insn.writes();
    writes
        .as_slice()
        .iter()
        .any(|write| is_between(*write, from, to, reg, placed.cycle))
}

/// The same of some instruction.
fn any_lands_between(all: &[Placed], from: u16, to: u16, reg: Reg) -> bool
    ensures { result ≡ list_any (lands_between from to reg) all.now }
{
    all.iter().any(|each| lands_between(each, from, to, reg))
}

/// Whether one condition holds exactly where the other does not.
fn are_opposite(one: Cond, other: Cond) -> bool
    ensures { result ≡ are_opposite one other }
{
    one.reg == other.reg
        && (if one.negated {
            !other.negated
        } else {
            other.negated
        })
}

/// Whether what two instructions of a block write may land together: they stand under opposite conditions on a register in
/// which nothing lands between their issues.
fn are_excused(all: &[Placed], placed: &Placed, other: &Placed) -> bool
    ensures { result ≡ are_excused all.now placed.now other.now }
{
    let from = placed.cycle.min(other.cycle);
    let to = placed.cycle.max(other.cycle);
    match (placed.insn.cond(), other.insn.cond()) {
        (Some(one), Some(test)) => are_opposite(one, test)
            && !any_lands_between(all, from, to, one.reg),
        _ => false,
    }
}

/// Whether a write of another instruction lands in this register in this cycle, without an excuse.
fn clashes(all: &[Placed], placed: &Placed, other: &Placed, reg: Reg, cycle: u32) -> bool
    ensures { result ≡ clashes all.now placed.now reg cycle other.now }
{
    lands(other, reg, cycle) && !are_excused(all, placed, other)
}

/// The same of one of the instructions.
fn any_clashes(all: &[Placed], placed: &Placed, others: &[Placed], reg: Reg, cycle: u32) -> bool
    ensures { result ≡ list_any (clashes all.now placed.now reg cycle) others.now }
{
    others
        .iter()
        .any(|each| clashes(all, placed, each, reg, cycle))
}

/// Whether another write lands with this one, without an excuse. Where nothing lands in its register then, none is looked for.
fn is_met(
    taken: &Taken,
    all: &[Placed],
    placed: &Placed,
    others: &[Placed],
    write: (Reg, u8),
) -> bool
    requires near { write.1 < 5 }
    requires here { placed.now.cycle ≡ taken.now.cycle }
    requires taken { IsTakenBy taken.now others.now }
    ensures { result ≡ is_met all.now placed.now others.now write }
{
    if !taken.landings.meet(write) {
        return false;
    }
    let cycle = u32::from(placed.cycle) + u32::from(write.1);
    any_clashes(all, placed, others, write.0, cycle)
}

/// The least cycle in which a write of the instruction lands with another, without an excuse.
fn landing_beside(taken: &Taken, all: &[Placed], placed: &Placed, others: &[Placed]) -> Option<u16>
    requires short { placed.now.cycle < MOST_CYCLES }
    requires here { placed.now.cycle ≡ taken.now.cycle }
    requires taken { IsTakenBy taken.now others.now }
    ensures { result ≡ landing_beside all.now placed.now others.now }
{
    let writes = placed.insn.writes();
    for write in writes.as_slice() {
        if is_met(taken, all, placed, others, *write) {
            return Some(placed.cycle + u16::from(write.1));
        }
    }
    None
}

/// The least cycle and there the first rule that an instruction, which takes so much, breaks together with those behind it.
fn broken_beside(
    taken: &Taken,
    uses: &Uses,
    all: &[Placed],
    placed: &Placed,
    others: &[Placed],
) -> Option<(u16, PacketRule)>
    requires short { placed.now.cycle < MOST_CYCLES }
    requires here { placed.now.cycle ≡ taken.now.cycle }
    requires taken { IsTakenBy taken.now others.now }
    ensures { IsBrokenBeside taken.now.row uses.now all.now placed.now others.now result }
{
    match taken.row.rule_against(uses) {
        Some(rule) => Some((placed.cycle, PacketRule::InCycle(rule))),
        None => {
            match landing_beside(taken, all, placed, others) {
                Some(cycle) => Some((cycle, PacketRule::P5)),
                None => None,
            }
        }
    }
}

fn rank(rule: PacketRule) -> u8
    ensures { result ≡ rank_of rule }
{
    match rule {
        PacketRule::InCycle(rule) => rule.rank(),
        PacketRule::P5 => 16,
    }
}

fn is_before(found: (u16, PacketRule), other: (u16, PacketRule)) -> bool
    ensures { result ≡ is_before found other }
{
    if found.0 == other.0 {
        rank(found.1) < rank(other.1)
    } else {
        found.0 < other.0
    }
}

fn earlier(
    found: Option<(u16, PacketRule)>,
    other: Option<(u16, PacketRule)>,
) -> Option<(u16, PacketRule)>
    ensures { result ≡ earlier found other }
{
    match (found, other) {
        (None, other) => other,
        (found, None) => found,
        (Some(found), Some(other)) => {
            if is_before(other, found) {
                Some(other)
            } else {
                Some(found)
            }
        }
    }
}

/// The least cycle, from 0, in which these instructions of a block break a packet rule, and there the first rule; for P5 it is the
/// cycle in which two writes land. `None` where all rules are kept. They stand in listing order (`docs/MACHINE.md`, "Packet
/// rules").
pub fn first_broken(placed: &[Placed]) -> Option<(u16, PacketRule)>
    requires few { length placed.now ≤ MOST_INSTRUCTIONS }
    requires short { All (λ p. p.cycle < MOST_CYCLES) placed.now }
    requires in_order { IsInListingOrder placed.now }
    ensures { FindsBroken placed.now result }
{
    let mut taken = Taken::new();
    let mut found = None;
    let mut at = placed.len();
    while at > 0 {
        at -= 1;
        let next = &placed[at];
        taken = taken.from_cycle(next.cycle);
        let uses = Uses::of(next.insn, next.unit);
        found = earlier(
            found,
            broken_beside(&taken, &uses, placed, next, &placed[at + 1..]),
        );
        taken.add(next, &uses);
    }
    found
}
