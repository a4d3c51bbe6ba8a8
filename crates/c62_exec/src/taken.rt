//! The branches of a packet that ran.

ghost use Rattle.std.specs.Prelude.{◌≡◌};
ghost use Rattle.c62_exec.specs.Step.{taken_with};

use c62_insn::Target;

/// The branches that ran among the instructions of a packet, with their lines.
#[derive(Clone, Copy, PartialEq, Eq, Debug)]
pub enum Taken {
    Nothing,
    /// One alone, where it goes and its line.
    One(Target, u32),
    /// The first two.
    Two(u32, u32),
}

impl Taken {
    /// With an instruction more, of this line, which branched there if it did.
    pub(crate) fn with(self, target: Option<Target>, line: u32) -> Taken
        ensures { result ≡ taken_with self target line }
    {
        match (self, target) {
            (Taken::Nothing, Some(target)) => Taken::One(target, line),
            (Taken::One(_, first), Some(_)) => Taken::Two(first, line),
            (taken, _) => taken,
        }
    }
}
