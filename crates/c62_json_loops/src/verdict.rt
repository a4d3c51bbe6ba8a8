//! What a verdict on a loop says.

ghost use Rattle.std.specs.Prelude.{◌≡◌};
ghost use Rattle.c62_json_loops.specs.Loops.{but_of, cycles_of, early_of, line_of, trips_of, word_of};

use c62_check_loop::LoopVerdict;
use c62_loop_match::Early;
use c62_pair::RegSet;

/// The word of it.
pub(crate) fn word_of(verdict: LoopVerdict) -> &'static str
    ensures { result.now ≡ word_of verdict }
{
    match verdict {
        LoopVerdict::Same { .. } => "same",
        LoopVerdict::SameBut { .. } => "same",
        LoopVerdict::Missing(_) => "missing",
        LoopVerdict::Extra(_) => "extra",
        LoopVerdict::Uneven(_) => "uneven",
        LoopVerdict::Counter(_) => "counter",
        LoopVerdict::Early(_) => "early",
        LoopVerdict::Branch(_) => "branch",
        LoopVerdict::Outside => "outside",
    }
}

/// From how many trips on the packets do what the loop does.
pub(crate) fn trips_of(verdict: LoopVerdict) -> Option<u64>
    ensures { result ≡ trips_of verdict }
{
    match verdict {
        LoopVerdict::Same { trips, .. } => Some(u64::from(trips)),
        LoopVerdict::SameBut { trips, .. } => Some(u64::from(trips)),
        _ => None,
    }
}

/// How many cycles a pass of the kernel takes.
pub(crate) fn cycles_of(verdict: LoopVerdict) -> Option<u64>
    ensures { result ≡ cycles_of verdict }
{
    match verdict {
        LoopVerdict::Same { cycles, .. } => Some(u64::from(cycles)),
        LoopVerdict::SameBut { cycles, .. } => Some(u64::from(cycles)),
        _ => None,
    }
}

/// The registers for which the packets don't do what the loop does.
pub(crate) fn but_of(verdict: LoopVerdict) -> Option<RegSet>
    ensures { result ≡ but_of verdict }
{
    match verdict {
        LoopVerdict::SameBut { but, .. } => Some(but),
        _ => None,
    }
}

/// The line that is told.
pub(crate) fn line_of(verdict: LoopVerdict) -> Option<u64>
    ensures { result ≡ line_of verdict }
{
    match verdict {
        LoopVerdict::Missing(line) => Some(u64::from(line)),
        LoopVerdict::Extra(line) => Some(u64::from(line)),
        LoopVerdict::Uneven(line) => Some(u64::from(line)),
        LoopVerdict::Counter(line) => Some(u64::from(line)),
        LoopVerdict::Branch(line) => Some(u64::from(line)),
        _ => None,
    }
}

/// The instance that comes too early.
pub(crate) fn early_of(verdict: LoopVerdict) -> Option<Early>
    ensures { result ≡ early_of verdict }
{
    match verdict {
        LoopVerdict::Early(early) => Some(early),
        _ => None,
    }
}
