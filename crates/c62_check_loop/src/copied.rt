//! The rows of a text once more.

ghost use Rattle.std.specs.Prelude.{◌≡◌, map, IfOk};
ghost use Rattle.c62_rows.specs.Rows.{row_read, text_of};

use c62_rows::{Row, Rows};
use std::alloc::{AllocError, Global};

fn row_copied(alloc: Global, row: &Row) -> Result<Row, AllocError>
    ensures { IfOk result (λ copy. row_read copy ≡ row_read row.now) }
{
    Ok(Row {
        insns: Vec::from_slice(alloc, &row.insns)?,
        idle: row.idle,
    })
}

fn rows_copied(alloc: Global, rows: &[Row]) -> Result<Vec<Row>, AllocError>
    ensures { IfOk result (λ copies. map row_read copies.items ≡ map row_read rows.now) }
{
    let mut copies = Vec::with_capacity(alloc, rows.len())?;
    for row in rows {
        copies.push(row_copied(alloc, row)?)?;
    }
    Ok(copies)
}

/// The rows once more.
///
/// # Errors
///
/// `AllocError` where memory ran out.
pub(crate) fn copied(alloc: Global, rows: &Rows) -> Result<Rows, AllocError>
    ensures { IfOk result (λ copy. text_of copy ≡ text_of rows.now) }
{
    Ok(Rows {
        rows: rows_copied(alloc, &rows.rows)?,
        aims: Vec::from_slice(alloc, &rows.aims)?,
    })
}
