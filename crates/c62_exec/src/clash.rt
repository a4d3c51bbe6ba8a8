//! Writes of one register that land in one cycle.

ghost use Rattle.std.specs.Prelude.{◌≡◌};
ghost use Rattle.c62_exec.specs.Step.{met_in, clash_in};

use c62_flight::Stop;
use c62_pipe::Due;

/// Where one of these writes the register of a write, the clash of both: the first that does.
fn met_by(write: &Due, others: &[Due]) -> Option<Stop>
    ensures { result ≡ met_in write.now others.now }
{
    let other = others.iter().find(|other| other.reg == write.reg)?;
    Some(Stop::Clash(write.reg, write.line, other.line))
}

/// The first of these writes, in the order of issue, that one behind it meets, with the first that
/// does.
pub(crate) fn first_clash(writes: &[Due]) -> Option<Stop>
    ensures { result ≡ clash_in writes.now }
{
    let mut rest = writes;
    while let [write, others @ ..] = rest {
        if let Some(stop) = met_by(write, others) {
            return Some(stop);
        }
        rest = others;
    }
    None
}
