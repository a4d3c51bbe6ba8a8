//! Whether the units can issue the rows of a text.

ghost use Rattle.std.specs.Prelude.{◌≡◌, map, IsTrue};
ghost use Rattle.std.specs.List.Sorted.{IsStrictlyIncreasing};
ghost use Rattle.c62_op.specs.Units.{index_of};
ghost use Rattle.c62_flight.specs.Text.{IsIssuable};
ghost use Rattle.c62_rows.specs.Rows.{text_of};
ghost use Rattle.c62_exec.specs.Ground.{IsFine};

use c62_packet::Placed;
use c62_rows::{Row, Rows};

/// Whether these instructions stand in the order of the units, at most one on each.
fn rise(insns: &[Placed]) -> bool
    ensures { IsTrue result → IsStrictlyIncreasing (map (λ p. index_of p.unit) insns.now) }
{
    match insns {
        [first, second, ..] => { first.unit.index() < second.unit.index() && rise(&insns[1..]) }
        _ => true,
    }
}

/// Whether the units can issue a row.
fn is_fine(row: &Row) -> bool
    ensures { IsTrue result → IsFine row.now }
{
    row.insns.len() <= 8 && rise(&row.insns)
}

/// Whether the units can issue each row of a text: its instructions stand in the order of the units,
/// at most one on each.
pub fn is_issuable(rows: &Rows) -> bool
    ensures { IsTrue result → IsIssuable (text_of rows.now) }
{
    for row in &rows.rows {
        if !is_fine(row) {
            return false;
        }
    }
    rows.rows.len() < 0x1_0000_0000
}
