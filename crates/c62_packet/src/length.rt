//! How many cycles placed instructions take.

ghost use Rattle.std.specs.Prelude.{◌≡◌, ◌↔◌, IsTrue};
ghost use Rattle.c62_rules.specs.Length.{landing_end, length_of};
ghost use Rattle.c62_packet.specs.Packed.{issue_of, issues_of, HaveOneBranch, AreDrained};

use crate::placed::Placed;

/// The cycle after an instruction's last landing.
fn landing_end(placed: &Placed) -> u32
    ensures { result ≡ landing_end (issue_of placed.now) }
{
    u32::from(placed.cycle) + u32::from(placed.insn.greatest_delay()) + 1
}

/// The cycles of a block of these instructions.
pub fn cycles_of(placed: &[Placed]) -> u32
    ensures { result ≡ length_of (issues_of placed.now) }
{
    let mut end = 0;
    for each in placed {
        if each.insn.op().is_branch() {
            return u32::from(each.cycle) + 6;
        }
        end = end.max(landing_end(each));
    }
    end
}

/// Whether all lands before this cycle.
pub fn is_drained(cycles: u16, placed: &[Placed]) -> bool
    ensures { IsTrue result ↔ AreDrained cycles placed.now }
{
    placed
        .iter()
        .all(|each| landing_end(each) <= u32::from(cycles))
}

/// Whether at most one of the instructions is a branch.
pub fn has_one_branch(placed: &[Placed]) -> bool
    ensures { IsTrue result ↔ HaveOneBranch placed.now }
{
    placed
        .iter()
        .filter(|each| each.insn.op().is_branch())
        .count()
        <= 1
}
