//! The cycles that are left to an instruction.

ghost use Rattle.std.specs.Prelude.{◌≡◌, ◌<◌, ◌≤◌, ◌⊎◌, ℕ, ◌+◌, pos, ◌+ℤ◌, ◌≤ℤ◌, IsTrue};

use c62_depend::Link;

/// The cycles in which an instruction can still be issued: those from the first one to the last one, and none where the
/// last one comes before the first.
#[derive(Clone, Copy, PartialEq, Eq, Debug)]
pub struct Window {
    /// The first cycle.
    pub first: u16,
    /// The last cycle.
    pub last: u16,
}

/// No cycle.
const NONE: Window = Window { first: 1, last: 0 };

impl Window {
    ghost use Rattle.c62_refute.specs.Window.{IsIn};

    /// The cycles in which an instruction with this delay can be issued in a block that ends within so many cycles.
    pub(crate) fn within(most: u16, delay: u8) -> Window
        ensures { (c : ℕ) → c + delay + 1 ≤ most → IsIn result c }
    {
        match most.checked_sub(u16::from(delay) + 1) {
            Some(last) => Window { first: 0, last },
            None => NONE,
        }
    }

    /// Whether no cycle is left.
    pub(crate) fn is_empty(self) -> bool
        ensures { IsTrue result → (cycle : ℕ) → IsIn self cycle → ⊥ }
    {
        self.last < self.first
    }

    /// What is left where another instruction, with this window, comes before by the latency of the link.
    pub(crate) fn behind(self, other: Window, link: Link) -> Window
        ensures { (c d : ℕ) → IsIn other c → IsIn self d → (pos c +ℤ link.latency) ≤ℤ pos d → IsIn result d }
    {
        let least = i32::from(other.first) + i32::from(link.latency);
        Window {
            first: self.first.max(u16::try_from(least).unwrap_or(0)),
            last: self.last,
        }
    }

    /// What is left where another instruction, with this window, comes behind by the latency of the link.
    pub(crate) fn before(self, other: Window, link: Link) -> Window
        ensures { (c d : ℕ) → IsIn self c → IsIn other d → (pos c +ℤ link.latency) ≤ℤ pos d → IsIn result c }
    {
        let most = i32::from(other.last) - i32::from(link.latency);
        if most < 0 {
            return NONE;
        }
        Window {
            first: self.first,
            last: self.last.min(u16::try_from(most).unwrap_or(u16::MAX)),
        }
    }

    /// What is left outside of the cycles from `first` to `last`.
    pub(crate) fn outside(self, first: u16, last: u16) -> Window
        ensures { (c : ℕ) → IsIn self c → (c < first) ⊎ (last < c) → IsIn result c }
    {
        let begin = if first <= self.first && self.first <= last {
            last.saturating_add(1)
        } else {
            self.first
        };
        if !(first <= self.last && self.last <= last) {
            return Window {
                first: begin,
                last: self.last,
            };
        }
        match first.checked_sub(1) {
            Some(end) => Window {
                first: begin,
                last: end,
            },
            None => NONE,
        }
    }

    /// Its last cycle alone.
    pub(crate) fn end(self) -> Window
        ensures { (c : ℕ) → IsIn self c → c ≡ self.last → IsIn result c }
    {
        Window {
            first: self.last,
            last: self.last,
        }
    }

    /// What is left without its last cycle.
    pub(crate) fn without_end(self) -> Window
        ensures { (c : ℕ) → IsIn self c → (c ≡ self.last → ⊥) → IsIn result c }
    {
        match self.last.checked_sub(1) {
            Some(last) => Window {
                first: self.first,
                last,
            },
            None => NONE,
        }
    }
}
