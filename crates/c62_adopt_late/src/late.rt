//! The first register that is read before what lands in it below a block.

ghost use Rattle.std.specs.Prelude.{◌≡◌, ◌<◌, ◌+◌, ◌^◌, ◌&&◌, nat_lt, map, length};
ghost use Rattle.std.specs.List.{list_any};
ghost use Rattle.c62_insn.specs.Insn.{op_of, operands_of, is_condition_on};
ghost use Rattle.c62_op.specs.Shape.{reads_of};
ghost use Rattle.c62_op.specs.Takes.{same_reg};
ghost use Rattle.c62_line.specs.Line.{parts_of};
ghost use Rattle.c62_adopt_cut.specs.Drafted.{issue_of, draft_of, cut_of};
ghost use Rattle.c62_adopt_cut.specs.Flight.{branches, next_start};
ghost use Rattle.c62_adopt_late.specs.Late.{cycle_at, reads, sets, is_set_in, is_set, reads_old, is_read_in, is_read_old, late_write, late_issue, late_in, late_among, first_late};

use c62_adopt_cut::{Cut, Draft, Issue};
use c62_insn::{Cond, Insn, Reg};

/// A register that is read below a block before what lands in it there, and the line of the instruction that writes it.
#[derive(Clone, Copy, PartialEq, Eq, Debug)]
pub struct Late {
    pub reg: Reg,
    pub line: u32,
}

/// The cycle of the text in which an instruction is issued whose block begins in this one.
fn cycle_at(start: u32, issue: &Issue) -> u64
    ensures cycle { result ≡ cycle_at start (issue_of issue.now) }
    ensures small { result < 2 ^ 33 }
{
    u64::from(start) + u64::from(issue.cycle)
}

fn has_operand(insn: Insn, reg: Reg) -> bool
    ensures { result ≡ list_any (λ read. same_reg read reg) (reads_of (op_of insn) (operands_of insn)) }
{
    let reads = insn.reads();
    reads.as_slice().iter().any(|read| *read == reg)
}

fn is_on(cond: Option<Cond>, reg: Reg) -> bool
    ensures { result ≡ is_condition_on reg cond }
{
    match cond {
        Some(cond) => cond.reg == reg,
        None => false,
    }
}

/// Whether the instruction reads the register, as an operand or as its condition.
fn reads(insn: Insn, reg: Reg) -> bool
    ensures { result ≡ reads reg (parts_of insn) }
{
    has_operand(insn, reg) || is_on(insn.cond(), reg)
}

/// Whether a write of an instruction of this cycle is one of the register, and has landed before that cycle.
fn lands_before(write: (Reg, u8), reg: Reg, issued: u64, cycle: u64) -> bool
    requires { issued < 2 ^ 33 }
    ensures { result ≡ (same_reg write.0 reg && nat_lt (issued + write.1) cycle) }
{
    write.0 == reg && issued + u64::from(write.1) < cycle
}

/// Whether one of these writes of an instruction of this cycle is.
fn has_landed(writes: &[(Reg, u8)], reg: Reg, issued: u64, cycle: u64) -> bool
    requires { issued < 2 ^ 33 }
    ensures { result ≡ list_any (λ write. same_reg write.0 reg && nat_lt (issued + write.1) cycle) writes.now }
{
    writes
        .iter()
        .any(|write| lands_before(*write, reg, issued, cycle))
}

/// Whether the instruction writes the register, whatever happens, and that has landed before this cycle.
fn sets(issue: &Issue, start: u32, reg: Reg, cycle: u64) -> bool
    ensures { result ≡ sets reg cycle start (issue_of issue.now) }
{
    let writes = issue.insn.writes();
    issue.insn.cond().is_none() && has_landed(writes.as_slice(), reg, cycle_at(start, issue), cycle)
}

fn set_among(issues: &[Issue], start: u32, reg: Reg, cycle: u64) -> bool
    ensures { result ≡ list_any (λ issue. sets reg cycle start (issue_of issue)) issues.now }
{
    issues.iter().any(|issue| sets(issue, start, reg, cycle))
}

#[tactic(auto, using(c62_adopt_cut::proofs::DraftLemmas::any_issue))]
fn is_set_in(draft: &Draft, reg: Reg, cycle: u64) -> bool
    ensures { result ≡ is_set_in reg cycle (draft_of draft.now) }
{
    set_among(&draft.issues, draft.start, reg, cycle)
}

fn set_in_any(drafts: &[Draft], reg: Reg, cycle: u64) -> bool
    ensures { result ≡ list_any (λ draft. is_set_in reg cycle (draft_of draft)) drafts.now }
{
    drafts.iter().any(|draft| is_set_in(draft, reg, cycle))
}

/// Whether an instruction of these blocks writes the register, whatever happens, and that has landed before this cycle.
#[tactic(auto, using(crate::proofs::Any::any_draft))]
fn is_set(drafts: &[Draft], reg: Reg, cycle: u64) -> bool
    ensures { result ≡ is_set reg cycle (map draft_of drafts.now) }
{
    set_in_any(drafts, reg, cycle)
}

/// Whether the instruction reads the register no later than in this cycle, and nothing of these blocks has set it by then.
fn reads_old(drafts: &[Draft], reg: Reg, landing: u64, start: u32, issue: &Issue) -> bool
    ensures { result ≡ reads_old (map draft_of drafts.now) reg landing start (issue_of issue.now) }
{
    let cycle = cycle_at(start, issue);
    cycle <= landing && reads(issue.insn, reg) && !is_set(drafts, reg, cycle)
}

fn read_among(drafts: &[Draft], issues: &[Issue], start: u32, reg: Reg, landing: u64) -> bool
    ensures { result ≡ list_any (λ issue. reads_old (map draft_of drafts.now) reg landing start (issue_of issue)) issues.now }
{
    issues
        .iter()
        .any(|issue| reads_old(drafts, reg, landing, start, issue))
}

#[tactic(auto, using(c62_adopt_cut::proofs::DraftLemmas::any_issue))]
fn is_read_in(drafts: &[Draft], draft: &Draft, reg: Reg, landing: u64) -> bool
    ensures { result ≡ is_read_in (map draft_of drafts.now) reg landing (draft_of draft.now) }
{
    read_among(drafts, &draft.issues, draft.start, reg, landing)
}

fn read_in_any(drafts: &[Draft], reg: Reg, landing: u64) -> bool
    ensures { result ≡ list_any (λ draft. is_read_in (map draft_of drafts.now) reg landing (draft_of draft)) drafts.now }
{
    drafts
        .iter()
        .any(|draft| is_read_in(drafts, draft, reg, landing))
}

/// Whether an instruction of these blocks reads the register no later than in this cycle, and none of them has set it by then.
#[tactic(auto, using(crate::proofs::Any::any_draft))]
fn is_read_old(drafts: &[Draft], reg: Reg, landing: u64) -> bool
    ensures { result ≡ is_read_old reg landing (map draft_of drafts.now) }
{
    read_in_any(drafts, reg, landing)
}

/// The first of these writes of the instruction of a line, issued in this cycle, that is in flight where the blocks below begin, and over
/// which the register is read there.
fn late_write(
    drafts: &[Draft],
    next: u32,
    line: u32,
    cycle: u64,
    writes: &[(Reg, u8)],
) -> Option<Late>
    requires { cycle < 2 ^ 33 }
    ensures { result ≡ late_write (map draft_of drafts.now) next line cycle writes.now }
{
    let mut left = writes;
    while let [(reg, delay), others @ ..] = left {
        let landing = cycle + u64::from(*delay);
        if u64::from(next) <= landing && is_read_old(drafts, *reg, landing) {
            return Some(Late { reg: *reg, line });
        }
        left = others;
    }
    None
}

/// The first of these instructions with such a write.
fn late_issue(drafts: &[Draft], next: u32, start: u32, issues: &[Issue]) -> Option<Late>
    ensures { result ≡ late_issue (map draft_of drafts.now) next start (map issue_of issues.now) }
{
    let mut left = issues;
    while let [issue, others @ ..] = left {
        let writes = issue.insn.writes();
        let cycle = cycle_at(start, issue);
        if let Some(late) = late_write(drafts, next, issue.line, cycle, writes.as_slice()) {
            return Some(late);
        }
        left = others;
    }
    None
}

fn next_start(end: u32, drafts: &[Draft]) -> u32
    ensures { result ≡ next_start end (map draft_of drafts.now) }
{
    match drafts {
        [] => end,
        [draft, ..] => draft.start,
    }
}

fn any_branches(issues: &[Issue]) -> bool
    ensures { result ≡ list_any (λ issue. branches (issue_of issue)) issues.now }
{
    issues.iter().any(|issue| issue.insn.op().is_branch())
}

/// The first such write of a block, with the blocks below it.
#[tactic(auto, using(c62_adopt_cut::proofs::DraftLemmas::any_issue))]
fn late_in(end: u32, drafts: &[Draft], draft: &Draft) -> Option<Late>
    ensures { result ≡ late_in end (map draft_of drafts.now) (draft_of draft.now) }
{
    if any_branches(&draft.issues) {
        None
    } else {
        late_issue(drafts, next_start(end, drafts), draft.start, &draft.issues)
    }
}

/// The first such write of these blocks, of a text that is over in this cycle.
fn late_among(end: u32, drafts: &[Draft]) -> Option<Late>
    ensures { result ≡ late_among end (map draft_of drafts.now) }
{
    let mut left = drafts;
    while let [draft, behind @ ..] = left {
        if let Some(late) = late_in(end, behind, draft) {
            return Some(late);
        }
        left = behind;
    }
    None
}

/// The first register of a text that is read below a block before what lands in it there, with the line of the instruction that writes
/// it. Draining the text may change what is read.
pub fn first_late(cut: &Cut) -> Option<Late>
    ensures { result ≡ first_late (cut_of cut.now) }
{
    late_among(cut.cycles, &cut.drafts)
}
