//! What a call is told to have answered: `None` where it was refused memory.

ghost use Rattle.std.specs.Prelude.{◌≡◌, ◌≢◌, MatchOption, if◌then◌else◌, Some, None};
ghost use Rattle.c62_board.specs.declared.turn.Turn.TheVariants.{Memory};

use c62_board::Turn;

/// What stands for each fault but a refusal of memory. With ample memory no call answers one.
pub(crate) const FAULT: u64 = 0;

/// What is told of a fault, which may say that memory was refused.
pub(crate) fn refused(is_memory: bool) -> Option<u64>
    ensures { result ≡ (if is_memory then None else Some FAULT) }
{
    if is_memory { None } else { Some(FAULT) }
}

/// The turn, where memory was not refused to it.
pub(crate) fn taken(turn: Turn) -> Option<Turn>
    ensures { MatchOption result (turn ≡ Memory) (λ taken. (taken ≡ turn) × (turn ≢ Memory)) }
{
    match turn {
        Turn::Memory => None,
        turn => Some(turn),
    }
}
