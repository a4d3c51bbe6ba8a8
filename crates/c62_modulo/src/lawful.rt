//! Whether packets are such as a text of packets may have.

ghost use Rattle.std.specs.Prelude.{◌≡◌, ◌↔◌, ◌≤◌, ◌<◌, map, length, All, Some, IsTrue};
ghost use Rattle.std.specs.Bool.{OnTrue};
ghost use Rattle.std.specs.List.Sorted.{IsStrictlyIncreasing};
ghost use Rattle.c62_op.specs.Units.{index_of};
ghost use Rattle.c62_insn.specs.Insn.{unit_of};
ghost use Rattle.c62_rules.specs.PacketRules.{KeepsPacketRules};
ghost use Rattle.c62_packet.specs.Packed.{IsInListingOrder, issued};
ghost use Rattle.c62_rows.specs.Rows.{row_read};
ghost use Rattle.c62_loop_match.specs.Parts.{loop_of};
ghost use Rattle.c62_modulo.specs.Made.{IsLawful, StandsAlone};

use c62_loop_match::Pipelined;
use c62_packet::{Placed, first_broken};
use c62_rows::Row;

/// Whether an instruction stands on its written unit.
fn is_on_unit(placed: &Placed) -> bool
    ensures { IsTrue result ↔ (unit_of placed.now.insn ≡ Some placed.now.unit) }
{
    match placed.insn.unit() {
        Some(unit) => unit == placed.unit,
        None => false,
    }
}

fn are_on_units(insns: &[Placed]) -> bool
    ensures { IsTrue result ↔ All (λ p. unit_of p.insn ≡ Some p.unit) insns.now }
{
    insns.iter().all(|placed| is_on_unit(placed))
}

/// Whether these have cycle 0.
fn are_at_once(insns: &[Placed]) -> bool
    ensures { IsTrue result ↔ All (λ p. p.cycle ≡ 0) insns.now }
{
    insns.iter().all(|placed| placed.cycle == 0)
}

/// Whether these instructions stand in the order of the units, at most one on each.
fn rise(insns: &[Placed]) -> bool
    ensures { OnTrue result (IsStrictlyIncreasing (map (λ p. index_of p.unit) insns.now)) }
{
    match insns {
        [first, second, ..] => first.unit.index() < second.unit.index() && rise(&insns[1..]),
        _ => true,
    }
}

/// Whether these keep the packet rules.
fn keep_rules(insns: &[Placed]) -> bool
    requires few { length insns.now ≤ 8 }
    requires cycles { All (λ p. p.cycle ≡ 0) insns.now }
    requires in_order { IsStrictlyIncreasing (map (λ p. index_of p.unit) insns.now) }
    ensures { OnTrue result (KeepsPacketRules (issued insns.now)) }
{
    first_broken(insns).is_none()
}

#[tactic(auto, using(crate::proofs::Orders::lawful))]
fn is_lawful(row: &Row) -> bool
    ensures { OnTrue result (IsLawful (row_read row.now)) }
{
    if row.insns.len() > 8 || !are_on_units(&row.insns) || !are_at_once(&row.insns) {
        return false;
    }
    if !rise(&row.insns) {
        return false;
    }
    keep_rules(&row.insns)
}

/// Whether all of these packets are.
pub(crate) fn are_lawful(rows: &[Row]) -> bool
    ensures { OnTrue result (All (λ row. IsLawful (row_read row)) rows.now) }
{
    for row in rows {
        if !is_lawful(row) {
            return false;
        }
    }
    true
}

/// Whether the rows of a loop are all of its text.
pub(crate) fn stands_alone(pipelined: &Pipelined) -> bool
    ensures { OnTrue result (StandsAlone (loop_of pipelined.now)) }
{
    let kernel = pipelined.first as usize + pipelined.prolog as usize;
    let last = kernel + pipelined.kernel as usize + pipelined.epilog as usize;
    pipelined.first == 0 && last == pipelined.rows.rows.len()
}
