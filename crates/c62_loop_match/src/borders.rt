//! The parts of a path: what stands before a loop, its iterations, and what stands behind it.

ghost use Rattle.std.specs.Prelude.{◌≡◌, ◌<◌, ◌^◌, ℕ};
ghost use Rattle.c62_loop.specs.Stage.{Straights};
ghost use Rattle.c62_loop_match.specs.Distances.{Parts, IsPart};

/// Where the iterations of a loop lie in a path.
#[derive(Clone, Copy)]
pub(crate) struct Borders {
    /// The number with which the first begins.
    pub begin: usize,
    /// How many instructions each has.
    pub body: usize,
    /// How many they are.
    pub trips: u16,
    /// The number behind the last.
    pub end: usize,
}

/// The part in which a number of the path lies: 0 is what stands before the loop, and iteration t is t + 1.
pub(crate) fn part_of(borders: Borders, number: usize) -> usize
    ensures { (straights : Straights) → Parts straights borders → IsPart straights borders.trips number result }
{
    if borders.end <= number {
        return usize::from(borders.trips) + 1;
    }
    if number < borders.begin {
        return 0;
    }
    if borders.body == 0 {
        return 0;
    }
    (number - borders.begin) / borders.body + 1
}
