//! What is to be issued in a pass of a kernel.

ghost use Rattle.std.specs.Prelude.{◌≡◌};

use c62_insn::{Insn, Unit};
use c62_read::SerialInsn;
use c62_row::Uses;

/// An instruction that is to be issued once in a pass of the kernel.
#[derive(Clone, Copy)]
pub struct Task {
    pub entry: SerialInsn,
    /// How late it takes its unit among those of a cycle: those that have least choice take theirs first.
    pub(crate) rank: u8,
    /// What it takes of a cycle on each unit that it may stand on, by the unit's index.
    pub(crate) choices: [Option<Uses>; 8],
}

/// The ranks of tasks.
pub(crate) const RANKS: [u8; 4] = [1, 2, 3, 4];

/// What an instruction takes of a cycle on each unit that it may stand on.
fn choices_of(insn: Insn) -> [Option<Uses>; 8] {
    let mut choices = [None; 8];
    for unit in Unit::ALL {
        if insn.may_stand(unit)
            && let Some(choice) = choices.get_mut(usize::from(unit.index()))
        {
            *choice = Some(Uses::of(insn, unit));
        }
    }
    choices
}

/// One unit is no choice, two of a side are few; a branch, which may stand on either side, comes before what may stand on three.
fn rank(insn: Insn, choices: &[Option<Uses>; 8]) -> u8 {
    let mut count = 0u8;
    for choice in choices {
        count = count.saturating_add(u8::from(choice.is_some()));
    }
    match count {
        0 | 1 => 1,
        2 if insn.op().is_branch() => 3,
        2 => 2,
        _ => 4,
    }
}

impl Task {
    /// An instruction as a task.
    pub fn new(entry: SerialInsn) -> Task
        ensures { result.entry ≡ entry }
    {
        let choices = choices_of(entry.insn);
        Task {
            entry,
            rank: rank(entry.insn, &choices),
            choices,
        }
    }
}
