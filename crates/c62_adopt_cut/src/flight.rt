//! What is in flight where a block is over, and the cycles that lack until it has landed.

ghost use Rattle.std.specs.Prelude.{◌≡◌, ◌<◌, ◌≤◌, ◌^◌, ◌+◌, length, map, nat_lt, option_map};
ghost use Rattle.std.specs.List.{find, list_any};
ghost use Rattle.std.specs.Option.{option_copied};
ghost use Rattle.c62_read.specs.Program.{label_is};
ghost use Rattle.c62_read.specs.declared.limits.TheConstants.{MOST_BLOCKS};
ghost use Rattle.c62_adopt_cut.specs.Text.{end_of};
ghost use Rattle.c62_adopt_cut.specs.Drafted.{issue_of, draft_of, refusal_of, cut_of};
ghost use Rattle.c62_adopt_cut.specs.Flight.{branches, over_in, landed, lacking, next_drained, is_lost, issue_fault, first_faulty, next_start, faulty_in, faulty_among, first_in_flight, all_lacking, cycles_lacking};

use crate::draft::{Draft, Issue};
use crate::fault::{TextCause, TextFault};
use crate::text::{Cut, end_of, is_given};
use c62_adopt_line::LineFault;
use c62_line::{Cause, Label};

fn branches(issue: &Issue) -> bool
    ensures { result ≡ branches (issue_of issue.now) }
{
    issue.insn.op().is_branch()
}

/// Whether one of these is a branch.
fn any_branches(issues: &[Issue]) -> bool
    ensures { result ≡ list_any (λ issue. branches (issue_of issue)) issues.now }
{
    issues.iter().any(|issue| branches(issue))
}

fn first_branch(issues: &[Issue]) -> Option<&Issue>
    ensures { option_copied result ≡ find (λ issue. branches (issue_of issue)) issues.now }
{
    issues.iter().find(|issue| branches(issue))
}

/// The cycle of the text in which an instruction stands whose block begins in this one.
fn cycle_behind(start: u32, issue: &Issue) -> u64
    ensures cycle { result ≡ start + issue.now.cycle }
    ensures small { result < 2 ^ 33 }
{
    u64::from(start) + u64::from(issue.cycle)
}

/// The cycle of the text in which a block is over, where the next one, or the text's end, is in this cycle.
#[tactic(auto, using(crate::proofs::DraftLemmas::find_issue))]
fn over_in(next: u64, draft: &Draft) -> u64
    ensures { result ≡ over_in next (draft_of draft.now) }
{
    match first_branch(&draft.issues) {
        Some(branch) => next.min(cycle_behind(draft.start, branch) + 6),
        None => next,
    }
}

/// The cycle of the text before which all lands of these instructions, whose block begins in this one.
fn landed(start: u32, issues: &[Issue]) -> u64
    ensures landed { result ≡ landed start (map issue_of issues.now) }
    ensures small { result < 2 ^ 34 }
{
    let mut last = 0;
    for issue in issues {
        last = end_of(issue.insn, cycle_behind(start, issue)).max(last);
    }
    last
}

/// How many cycles a block lacks, where the next one, or the text's end, is in this cycle.
#[tactic(auto, using(crate::proofs::DraftLemmas::any_issue))]
fn lacking(next: u32, draft: &Draft) -> u64
    ensures lacking { result ≡ lacking next (draft_of draft.now) }
    ensures small { result < 2 ^ 34 }
{
    if any_branches(&draft.issues) {
        0
    } else {
        landed(draft.start, &draft.issues).saturating_sub(u64::from(next))
    }
}

/// Where the next block, or the text's end, is once the cycles are added that lack.
fn next_drained(drain: bool, next: u32, draft: &Draft) -> u64
    ensures { result ≡ next_drained drain next (draft_of draft.now) }
{
    if drain {
        u64::from(next) + lacking(next, draft)
    } else {
        u64::from(next)
    }
}

/// Whether the instruction branches to a label that none of these blocks has.
#[tactic(auto, using(crate::proofs::DraftLemmas::any_draft))]
fn is_lost(drafts: &[Draft], target: &Option<Label>) -> bool
    ensures { result ≡ is_lost (map draft_of drafts.now) target.now }
{
    match target {
        None => false,
        Some(label) => !is_given(label.as_bytes(), drafts),
    }
}

/// Whether something of an instruction is in flight in this cycle, whose block begins in that one.
fn is_in_flight(over: u64, start: u32, issue: &Issue) -> bool
    ensures { result ≡ nat_lt over (end_of (issue_of issue.now).parts (start + issue.now.cycle)) }
{
    over < end_of(issue.insn, cycle_behind(start, issue))
}

/// What stands against an instruction of a block that begins and is over in these cycles, before others of the block.
#[tactic(auto, using(crate::proofs::DraftLemmas::any_issue))]
fn issue_fault(
    drafts: &[Draft],
    start: u32,
    over: u64,
    issue: &Issue,
    others: &[Issue],
) -> Option<TextCause>
    ensures { result ≡ issue_fault (map draft_of drafts.now) start over (issue_of issue.now) (map issue_of others.now) }
{
    if is_lost(drafts, &issue.target) {
        Some(TextCause::Line(LineFault::Read(Cause::UnknownTarget)))
    } else if branches(issue) && any_branches(others) {
        Some(TextCause::TwoBranches)
    } else if is_in_flight(over, start, issue) {
        Some(TextCause::NotDrained)
    } else {
        None
    }
}

/// The first of these instructions that has a fault.
fn first_faulty(drafts: &[Draft], start: u32, over: u64, issues: &[Issue]) -> Option<TextFault>
    ensures { option_map refusal_of result ≡ first_faulty (map draft_of drafts.now) start over (map issue_of issues.now) }
{
    let mut left = issues;
    while let [issue, others @ ..] = left {
        if let Some(cause) = issue_fault(drafts, start, over, issue, others) {
            return Some(TextFault::at(issue.line, cause));
        }
        left = others;
    }
    None
}

fn next_start(end: u32, drafts: &[Draft]) -> u32
    ensures { result ≡ next_start end (map draft_of drafts.now) }
{
    match drafts {
        [] => end,
        [draft, ..] => draft.start,
    }
}

/// The first of a block's instructions that has a fault, where the next block, or the text's end, is in this cycle.
#[tactic(auto, unfolding(crate::specs::Flight::faulty_in))]
fn faulty_in(drain: bool, drafts: &[Draft], next: u32, draft: &Draft) -> Option<TextFault>
    ensures { option_map refusal_of result ≡ faulty_in drain (map draft_of drafts.now) next (draft_of draft.now) }
{
    let over = over_in(next_drained(drain, next, draft), draft);
    first_faulty(drafts, draft.start, over, &draft.issues)
}

/// The first faulty instruction of the blocks of a text, which is over in this cycle.
fn faulty_among(drain: bool, drafts: &[Draft], end: u32) -> Option<TextFault>
    ensures { option_map refusal_of result ≡ faulty_among drain (map draft_of drafts.now) end (map draft_of drafts.now) }
{
    let mut left = drafts;
    while let [draft, behind @ ..] = left {
        if let Some(fault) = faulty_in(drain, drafts, next_start(end, behind), draft) {
            return Some(fault);
        }
        left = behind;
    }
    None
}

/// The first instruction that has a fault because of the lines below it: `UnknownTarget`, `TwoBranches` or `NotDrained`
/// (docs/ADOPT.md, "Faults of a text"). With `drain` the cycles are added first that lack.
pub fn first_in_flight(cut: &Cut, drain: bool) -> Option<TextFault>
    ensures { option_map refusal_of result ≡ first_in_flight drain (cut_of cut.now) }
{
    faulty_among(drain, &cut.drafts, cut.cycles)
}

/// How many cycles these blocks lack, of a text that is over in this cycle.
fn all_lacking(drafts: &[Draft], end: u32) -> u64
    requires few { length drafts.now ≤ MOST_BLOCKS }
    ensures { result ≡ all_lacking end (map draft_of drafts.now) }
{
    let mut cycles = 0;
    let mut left = drafts;
    while let [draft, behind @ ..] = left {
        cycles += lacking(next_start(end, behind), draft);
        left = behind;
    }
    cycles
}

/// How many cycles are added to a text that is drained, of at most [`MOST_BLOCKS`](c62_read::MOST_BLOCKS) blocks (docs/ADOPT.md,
/// "Cycles that lack").
pub fn cycles_lacking(cut: &Cut) -> u64
    requires few { length cut.now.drafts.items ≤ MOST_BLOCKS }
    ensures { result ≡ cycles_lacking (cut_of cut.now) }
{
    all_lacking(&cut.drafts, cut.cycles)
}
