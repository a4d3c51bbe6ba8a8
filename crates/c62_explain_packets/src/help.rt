//! Which lines have part in a fault of packets, and what helps.

ghost use Rattle.std.specs.Prelude.{◌≡◌, ◌++◌, OnOk};
ghost use Rattle.c62_op.specs.Name.{register_name};
ghost use Rattle.c62_explain.specs.Picture.{AddsHelp};

use crate::finding::{Finding, What};
use crate::sharing::{lacking, landing_together, lines_sharing};
use c62_adopt_code::CodeCause;
use c62_adopt_cut::{Cut, Draft, Issue};
use c62_adopt_spell::reference_of;
use c62_explain::{line_at, line_help, push_hint};
use c62_insn::{Letter, Reg, Side, Unit};
use c62_line::{Cause, ReadFault};
use c62_op::InstructionSet;
use c62_packet::PacketRule;
use c62_place::{Place, token_at};
use c62_rules::Resource;
use itoa::Buffer;
use std::alloc::{AllocError, Global};

fn unit_name(unit: Unit) -> &'static [u8] {
    match (unit.letter, unit.side) {
        (Letter::L, Side::A) => b".L1",
        (Letter::L, Side::B) => b".L2",
        (Letter::S, Side::A) => b".S1",
        (Letter::S, Side::B) => b".S2",
        (Letter::M, Side::A) => b".M1",
        (Letter::M, Side::B) => b".M2",
        (Letter::D, Side::A) => b".D1",
        (Letter::D, Side::B) => b".D2",
    }
}

pub(crate) fn push_register(out: &mut Vec<u8>, reg: Reg) -> Result<(), AllocError>
    ensures { OnOk result (out.new.items ≡ out.old.items ++ register_name reg) }
{
    let mut buffer = Buffer::new();
    out.extend_from_slice(match reg.side {
        Side::A => b"A",
        Side::B => b"B",
    })?;
    out.extend_from_slice(buffer.format(reg.number).as_bytes())
}

fn push_resource(out: &mut Vec<u8>, resource: Resource) -> Result<(), AllocError> {
    match resource {
        Resource::OnUnit(unit) => out.extend_from_slice(unit_name(unit)),
        Resource::CrossPath(Side::A) => out.extend_from_slice(b"1X"),
        Resource::CrossPath(Side::B) => out.extend_from_slice(b"2X"),
        Resource::DataPath(Side::A) => out.extend_from_slice(b"T1"),
        Resource::DataPath(Side::B) => out.extend_from_slice(b"T2"),
        Resource::ReadsOf(reg) => push_register(out, reg),
    }
}

/// The instruction of this line, and its block.
pub(crate) fn issue_at(drafts: &[Draft], line: u32) -> Option<(&Draft, &Issue)> {
    for draft in drafts {
        for issue in draft.issues.as_slice() {
            if issue.line == line {
                return Some((draft, issue));
            }
        }
    }
    None
}

/// A line without the blanks that stand first.
fn from_token(line: &[u8]) -> &[u8] {
    &line[token_at(line, 0).start.min(line.len())..]
}

/// The token of a line that stands there.
fn word_at(line: &[u8], place: Place) -> &[u8] {
    let from = place.start.min(line.len());
    let behind = &line[from..];
    &behind[..place.len.min(behind.len())]
}

/// A line of help of these words.
fn push_one(out: &mut Vec<u8>, number: u32, words: &[&[u8]]) -> Result<(), AllocError>
    ensures { OnOk result (AddsHelp number out.old.items out.new.items) }
{
    push_hint(out, number, words)
}

/// A line of help about another line: what it takes too, and the line itself.
fn push_other(
    out: &mut Vec<u8>,
    text: &[u8],
    number: u32,
    other: u32,
    takes: &[u8],
) -> Result<(), AllocError>
    ensures { OnOk result (AddsHelp number out.old.items out.new.items) }
{
    let mut buffer = Buffer::new();
    let line = from_token(line_at(text, other));
    push_one(
        out,
        number,
        &[
            b"line ",
            buffer.format(other).as_bytes(),
            takes,
            b": ",
            line,
        ],
    )
}

/// The lines that share a resource with an instruction.
#[tactic(auto, using(c62_explain::proofs::HintLemmas::adds_none))]
fn push_sharing(
    out: &mut Vec<u8>,
    alloc: Global,
    text: &[u8],
    number: u32,
    resource: Resource,
    issue: &Issue,
    issues: &[Issue],
) -> Result<(), AllocError>
    ensures { OnOk result (AddsHelp number out.old.items out.new.items) }
{
    let mut takes = Vec::new(alloc);
    takes.extend_from_slice(match resource {
        Resource::ReadsOf(_) => b" reads ",
        _ => b" takes ",
    })?;
    push_resource(&mut takes, resource)?;
    for other in lines_sharing(alloc, resource, issue, issues)?.iter() {
        push_other(out, text, number, *other, &takes)?;
    }
    Ok(())
}

/// The line whose write lands together with one of an instruction.
#[tactic(auto, using(c62_explain::proofs::HintLemmas::adds_none))]
fn push_landing(
    out: &mut Vec<u8>,
    alloc: Global,
    text: &[u8],
    number: u32,
    issue: &Issue,
    issues: &[Issue],
) -> Result<(), AllocError>
    ensures { OnOk result (AddsHelp number out.old.items out.new.items) }
{
    let Some((other, reg)) = landing_together(issue, issues) else {
        return Ok(());
    };
    let mut takes = Vec::new(alloc);
    takes.extend_from_slice(b" writes ")?;
    push_register(&mut takes, reg)?;
    push_other(out, text, number, other, &takes)
}

/// The lines that break a rule with the one of this number.
#[tactic(auto, using(c62_explain::proofs::HintLemmas::adds_none))]
fn push_breach(
    out: &mut Vec<u8>,
    alloc: Global,
    text: &[u8],
    number: u32,
    rule: PacketRule,
    cut: &Cut,
) -> Result<(), AllocError>
    ensures { OnOk result (AddsHelp number out.old.items out.new.items) }
{
    let Some((draft, issue)) = issue_at(&cut.drafts, number) else {
        return Ok(());
    };
    match rule {
        PacketRule::InCycle(rule) => match lacking(rule, issue, &draft.issues) {
            Some(resource) => push_sharing(
                out,
                alloc,
                text,
                number,
                resource,
                issue,
                &draft.issues,
            ),
            None => Ok(()),
        },
        PacketRule::P5 => push_landing(out, alloc, text, number, issue, &draft.issues),
    }
}

/// The cycle in which the block that begins in this one is over, both counted from the beginning of the text.
fn block_end(cut: &Cut, start: u32) -> u32 {
    for draft in cut.drafts.as_slice() {
        if draft.start > start {
            return draft.start;
        }
    }
    cut.cycles
}

/// The cycle in which all that an instruction does has landed, counted from the beginning of its block.
fn landed(issue: &Issue) -> u32 {
    issue
        .cycle
        .saturating_add(u32::from(issue.insn.delay()))
        .saturating_add(1)
}

/// The first branch of a block.
fn first_branch(draft: &Draft) -> Option<&Issue> {
    for issue in draft.issues.as_slice() {
        if issue.insn.op().is_branch() {
            return Some(issue);
        }
    }
    None
}

/// How many cycles are missing below a block until an instruction has landed.
fn cycles_missing(cut: &Cut, draft: &Draft, issue: &Issue) -> u32 {
    let over = block_end(cut, draft.start).saturating_sub(draft.start);
    landed(issue).saturating_sub(over)
}

/// Whether something of an instruction is in flight where its block is over.
pub(crate) fn is_late(cut: &Cut, draft: &Draft, issue: &Issue) -> bool {
    let behind = match first_branch(draft) {
        Some(branch) => landed(branch) < landed(issue),
        None => false,
    };
    behind || 0 < cycles_missing(cut, draft, issue)
}

/// What runs code that no listing holds.
#[tactic(auto, using(c62_explain::proofs::HintLemmas::adds_none))]
fn push_flight(out: &mut Vec<u8>, number: u32) -> Result<(), AllocError>
    ensures { OnOk result (AddsHelp number out.old.items out.new.items) }
{
    push_one(
        out,
        number,
        &[
            b"`exec` runs code with all of this in flight, and `check --loops` holds it against serial loops",
        ],
    )
}

/// The cycles that an instruction of a block with this branch lacks: NOPs give them, or it lands behind the branch.
#[tactic(auto, using(c62_explain::proofs::HintLemmas::adds_none))]
fn push_branched(
    out: &mut Vec<u8>,
    number: u32,
    issue: &Issue,
    branch: &Issue,
    missing: u32,
) -> Result<(), AllocError>
    ensures { OnOk result (AddsHelp number out.old.items out.new.items) }
{
    let mut buffer = Buffer::new();
    let mut line = Buffer::new();
    let behind = landed(issue).saturating_sub(landed(branch));
    if behind == 0 {
        let cycles = buffer.format(missing).as_bytes();
        push_one(
            out,
            number,
            &[
                b"cycles that are missing before the block is over: ",
                cycles,
                b"; write NOP ",
                cycles,
                b", as `adopt --drain` adds none behind a branch",
            ],
        )
    } else {
        push_one(
            out,
            number,
            &[
                b"cycles by which it lands behind the branch of line ",
                line.format(branch.line).as_bytes(),
                b": ",
                buffer.format(behind).as_bytes(),
                b"; issue it earlier, or the branch later",
            ],
        )
    }
}

#[tactic(auto, using(c62_explain::proofs::HintLemmas::adds_none))]
fn push_missing(out: &mut Vec<u8>, number: u32, cut: &Cut) -> Result<(), AllocError>
    ensures { OnOk result (AddsHelp number out.old.items out.new.items) }
{
    let Some((draft, issue)) = issue_at(&cut.drafts, number) else {
        return Ok(());
    };
    let missing = cycles_missing(cut, draft, issue);
    if let Some(branch) = first_branch(draft) {
        return push_branched(out, number, issue, branch, missing);
    }
    let mut buffer = Buffer::new();
    push_one(
        out,
        number,
        &[
            b"cycles that are missing before the block is over: ",
            buffer.format(missing).as_bytes(),
            b"; `adopt --drain` adds them",
        ],
    )
}

/// The next branch of the block.
fn next_branch(draft: &Draft, number: u32) -> Option<u32> {
    for issue in draft.issues.as_slice() {
        if issue.line > number && issue.insn.op().is_branch() {
            return Some(issue.line);
        }
    }
    None
}

#[tactic(auto, using(c62_explain::proofs::HintLemmas::adds_none))]
fn push_branch(out: &mut Vec<u8>, text: &[u8], number: u32, cut: &Cut) -> Result<(), AllocError>
    ensures { OnOk result (AddsHelp number out.old.items out.new.items) }
{
    let Some((draft, _)) = issue_at(&cut.drafts, number) else {
        return Ok(());
    };
    match next_branch(draft, number) {
        Some(other) => push_other(out, text, number, other, b" is another branch"),
        None => Ok(()),
    }
}

/// What is said of a reference to a local label that isn't there.
#[tactic(auto, using(c62_explain::proofs::HintLemmas::adds_none))]
fn push_lost(out: &mut Vec<u8>, number: u32, word: &[u8], below: bool) -> Result<(), AllocError>
    ensures { OnOk result (AddsHelp number out.old.items out.new.items) }
{
    let Some((_, label)) = word.split_last() else {
        return Ok(());
    };
    let place: &[u8] = if below {
        b"below"
    } else {
        b"above, nor on this one"
    };
    push_one(
        out,
        number,
        &[b"the label ", label, b": stands on no line ", place],
    )
}

/// What helps where a line goes to a label that isn't there.
#[tactic(auto, using(c62_explain::proofs::HintLemmas::adds_none))]
fn push_target_help(
    isa: InstructionSet,
    out: &mut Vec<u8>,
    alloc: Global,
    text: &[u8],
    serial: &[u8],
    fault: ReadFault,
    place: Place,
) -> Result<(), AllocError>
    ensures { OnOk result (AddsHelp fault.line out.old.items out.new.items) }
{
    let word = word_at(serial, place);
    match reference_of(word) {
        Some((_, below)) => push_lost(out, fault.line, word, below),
        None => out.extend_from_slice(&line_help(isa, alloc, text, serial, fault, place)?),
    }
}

/// What helps where a line has a fault that serial texts have, too; `serial` is the line without its bars or its local label.
#[tactic(auto, using(c62_explain::proofs::HintLemmas::adds_none))]
fn push_read_help(
    isa: InstructionSet,
    out: &mut Vec<u8>,
    alloc: Global,
    text: &[u8],
    serial: &[u8],
    fault: ReadFault,
    place: Place,
) -> Result<(), AllocError>
    ensures { OnOk result (AddsHelp fault.line out.old.items out.new.items) }
{
    match fault.cause {
        Cause::Directive => push_one(
            out,
            fault.line,
            &[b"docs/ADOPT.md has the directives that are read"],
        ),
        Cause::ParallelBar | Cause::DuplicateLabel => Ok(()),
        Cause::UnknownTarget => push_target_help(isa, out, alloc, text, serial, fault, place),
        _ => out.extend_from_slice(&line_help(isa, alloc, text, serial, fault, place)?),
    }
}

/// Lines of help for a fault of packets; `cut` has the blocks of the text's code.
#[tactic(auto, using(c62_explain::proofs::HintLemmas::adds_none, c62_explain::proofs::HintLemmas::adds_behind_on))]
pub(crate) fn push_help(
    isa: InstructionSet,
    out: &mut Vec<u8>,
    alloc: Global,
    text: &[u8],
    serial: &[u8],
    finding: Finding,
    place: Place,
    cut: &Cut,
) -> Result<(), AllocError>
    ensures { OnOk result (AddsHelp finding.line out.old.items out.new.items) }
{
    let number = finding.line;
    match finding.what {
        What::Read(cause) => push_read_help(
            isa,
            out,
            alloc,
            text,
            serial,
            ReadFault::at(number, cause),
            place,
        ),
        What::Rule(rule) => push_breach(out, alloc, text, number, rule, cut),
        What::NotDrained => {
            push_missing(out, number, cut)?;
            push_flight(out, number)
        }
        What::TwoBranches => {
            push_branch(out, text, number, cut)?;
            push_flight(out, number)
        }
        What::Code(CodeCause::Directive) => {
            push_one(
                out,
                number,
                &[b"docs/ADOPT.md has the directives that are read"],
            )
        }
        What::Shape => push_one(
            out,
            number,
            &[b"`adopt` reads other spellings, and writes the listing"],
        ),
        What::Code(_)
        | What::UnitWanted
        | What::TooManyCycles
        | What::BranchBeside
        | What::TooManyTargets => Ok(()),
    }
}
