//! Branches to labels that no line has.

ghost use Rattle.std.specs.Prelude.{◌≡◌, ◌∷◌, [], map};
ghost use Rattle.std.specs.List.{list_any};
ghost use Rattle.std.specs.Option.{option_copied, option_to_list};
ghost use Rattle.c62_read.specs.Jump.{key_of};
ghost use Rattle.c62_read.specs.Program.{is_among};
ghost use Rattle.c62_read.specs.Walk.{asked_of, first_line};
ghost use Rattle.c62_read.specs.Reading.{LeavesOut};

use crate::jump::{Jump, key_of};

fn any_to(jumps: &[Jump], key: u64, label: &[u8]) -> bool
    requires { key ≡ key_of label.now }
    ensures { result ≡ list_any (λ jump. is_among jump.target (label.now ∷ [])) jumps.now }
{
    jumps.iter().any(|jump| jump.goes_to(key, label))
}

/// Leaves out the branches to a label.
fn leave_out(jumps: &mut Vec<Jump>, label: &[u8])
    ensures { LeavesOut (label.now ∷ []) jumps.old.items jumps.new.items }
{
    let key = key_of(label);
    if any_to(jumps, key, label) {
        jumps.retain(|jump| !jump.goes_to(key, label));
    }
}

/// Leaves out the branches to the label of a line, where it has one.
#[tactic(auto, using(crate::proofs::MissedLemmas::missed_all))]
pub(crate) fn leave_out_label(jumps: &mut Vec<Jump>, label: Option<&[u8]>)
    ensures { LeavesOut (option_to_list (option_copied label.entry)) jumps.old.items jumps.new.items }
{
    match label {
        Some(label) => leave_out(jumps, label),
        None => (),
    }
}

/// The line of the first of these branches.
#[tactic(auto, using(crate::proofs::MissedLemmas::first_one))]
pub(crate) fn first_branch(jumps: &[Jump]) -> Option<u32>
    ensures { result ≡ first_line (map asked_of jumps.now) }
{
    match jumps.first() {
        Some(jump) => Some(jump.line),
        None => None,
    }
}
