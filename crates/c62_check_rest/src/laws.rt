//! The law of blocks that belong to no loop. The function does nothing: what it ensures is proved of the definitions that the contract of
//! [`crate::check_rest`] cites.

ghost use Rattle.std.specs.Prelude.{ℕ};
ghost use Rattle.c62_read.specs.Block.{Serial};
ghost use Rattle.c62_flight.specs.Text.{Text};
ghost use Rattle.c62_check_rest.specs.declared.verdict.RestVerdict.{RestVerdict};
ghost use Rattle.c62_check_rest.specs.Starts.{Starts};
ghost use Rattle.c62_check_rest.specs.Laws.{RestIsSerial};

/// Where a block is told to be the same, a run over its rows from every sound machine leaves what the block leaves serially, and goes on
/// where that does, with nothing in flight.
pub fn rest_is_serial()
    ensures { (starts : Starts) (packets : Text) (number : ℕ) (block : Serial) (verdict : RestVerdict)
        → RestIsSerial starts packets number block verdict }
{}
