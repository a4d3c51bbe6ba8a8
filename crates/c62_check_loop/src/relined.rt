//! Whether rows hold what others do, but for the lines.

ghost use Rattle.std.specs.Prelude.{◌≡◌, map};
ghost use Rattle.std.specs.Bool.{OnTrue};
ghost use Rattle.c62_rows.specs.Rows.{row_read, text_of};
ghost use Rattle.c62_loop_match.specs.Reading.{unlined};
ghost use Rattle.c62_check_loop.specs.Relined.{row_unlined, AreRelined};

use c62_packet::Placed;
use c62_rows::{Row, Rows};

/// Whether two are one but for their lines.
fn is_same_placed(placed: &Placed, other: &Placed) -> bool
    ensures { OnTrue result (unlined placed.now ≡ unlined other.now) }
{
    placed.insn.same(&other.insn) && placed.cycle == other.cycle && placed.unit == other.unit
}

/// Whether these are the others one for one.
fn are_same_placed(insns: &[Placed], others: &[Placed]) -> bool
    ensures { OnTrue result (map unlined insns.now ≡ map unlined others.now) }
{
    if insns.len() != others.len() {
        return false;
    }
    for number in 0..insns.len() {
        if !is_same_placed(&insns[number], &others[number]) {
            return false;
        }
    }
    true
}

/// Whether two rows are one.
fn is_same_row(row: &Row, other: &Row) -> bool
    ensures { OnTrue result (row_unlined (row_read row.now) ≡ row_unlined (row_read other.now)) }
{
    row.idle == other.idle && are_same_placed(&row.insns, &other.insns)
}

/// Whether these rows are the others one for one.
fn are_same_rows(rows: &[Row], others: &[Row]) -> bool
    ensures { OnTrue result (map (λ row. row_unlined (row_read row)) rows.now ≡ map (λ row. row_unlined (row_read row)) others.now) }
{
    if rows.len() != others.len() {
        return false;
    }
    for number in 0..rows.len() {
        if !is_same_row(&rows[number], &others[number]) {
            return false;
        }
    }
    true
}

/// Whether these labels name the rows of the others.
fn are_same_aims(aims: &[u32], others: &[u32]) -> bool
    ensures { OnTrue result (aims.now ≡ others.now) }
{
    aims == others
}

/// Whether both are the same packets, whatever lines these have, with labels at the same rows.
pub(crate) fn are_relined(rows: &Rows, others: &Rows) -> bool
    ensures { OnTrue result (AreRelined (text_of rows.now) (text_of others.now)) }
{
    are_same_aims(&rows.aims, &others.aims) && are_same_rows(&rows.rows, &others.rows)
}
