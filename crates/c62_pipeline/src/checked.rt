//! Whether packets do what a program does.

ghost use Rattle.std.specs.Prelude.{ℕ, List, IfOk, map};
ghost use Rattle.std.specs.Bool.{OnTrue};
ghost use Rattle.c62_command.specs.Promises.{trips_of};
ghost use Rattle.c62_rows.specs.Told.{ReadsAs};
ghost use Rattle.c62_pipeline.specs.Checked.{IsChecked};

use c62_check_loops::check_loops;
use c62_command::Promises;
use c62_op::InstructionSet;
use c62_read::Program;
use c62_rows::{RowsFault, RowsText, read_rows};
use std::alloc::{AllocError, Global};

/// Whether packets that were read do what the program does, where so much is promised: they may leave no register otherwise.
#[tactic(auto, using(crate::proofs::Told::checked_text))]
fn are_same(
    isa: InstructionSet,
    alloc: Global,
    program: &Program,
    read: &RowsText,
    promises: &Promises,
) -> Result<bool, AllocError>
    ensures { (text : List ℕ) → ReadsAs isa text read.now → IfOk result (λ same. OnTrue same
        (IsChecked isa (map trips_of promises.now.trips.items) promises.now.apart.items program.now text)) }
{
    let checked = check_loops(alloc, program, read, promises)?;
    if checked.plain {
        Ok(checked.same)
    } else {
        Ok(false)
    }
}

/// Whether a text is one of packets that do what the program does, where so much is promised.
///
/// # Errors
///
/// `AllocError` where memory ran out.
pub(crate) fn is_checked(
    isa: InstructionSet,
    alloc: Global,
    program: &Program,
    text: &[u8],
    promises: &Promises,
) -> Result<bool, AllocError>
    ensures { IfOk result (λ checked. OnTrue checked
        (IsChecked isa (map trips_of promises.now.trips.items) promises.now.apart.items program.now text.now)) }
{
    match read_rows(isa, alloc, text) {
        Ok(read) => are_same(isa, alloc, program, &read, promises),
        Err(RowsFault::Memory) => Err(AllocError),
        Err(_) => Ok(false),
    }
}
