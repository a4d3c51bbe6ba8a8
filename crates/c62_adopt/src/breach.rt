//! The instructions of the blocks of a text in listing order, or the first that breaks a packet rule with those above it.

ghost use Rattle.std.specs.Prelude.{◌≤◌, length, map, All, IfOk, MatchResult};
ghost use Rattle.std.specs.List.{AllZip};
ghost use Rattle.c62_read.specs.declared.limits.TheConstants.{MOST_BLOCKS, MOST_INSTRUCTIONS};
ghost use Rattle.c62_adopt_cut.specs.Drafted.{issue_of, draft_of};
ghost use Rattle.c62_adopt_cut.specs.Laws.{IsFine};
ghost use Rattle.c62_adopt.specs.Breach.{IsBreachIn, IsFirstBreach};
ghost use Rattle.c62_adopt.specs.Judged.{MayStand, AreLawful, BreakFirst};

use crate::listed::listed;
use c62_adopt_cut::{Draft, Issue};
use c62_op::InstructionSet;
use c62_packet::{PacketRule, Placed, first_broken};
use std::alloc::{AllocError, Global};

/// An instruction by its line, and the rule that it breaks.
type Breach = (u32, PacketRule);

/// These instructions of a block in listing order. An error is the first rule that they break.
fn judged(
    alloc: Global,
    drafts: &[Draft],
    issues: &[Issue],
) -> Result<Result<Vec<Placed>, PacketRule>, AllocError>
    requires blocks { length drafts.now ≤ MOST_BLOCKS }
    requires few { length issues.now ≤ MOST_INSTRUCTIONS }
    requires stand { All (λ issue. MayStand (issue_of issue)) issues.now }
    ensures { IfOk result (λ judged. MatchResult judged
        (λ list. AreLawful (map draft_of drafts.now) (map issue_of issues.now) list.items)
        (BreakFirst (map draft_of drafts.now) (map issue_of issues.now))) }
{
    let placed = listed(alloc, drafts, issues)?;
    match first_broken(&placed) {
        Some((_, rule)) => Ok(Err(rule)),
        None => Ok(Ok(placed)),
    }
}

/// The first instruction of a block that breaks a rule with those above it, where all of them break this one: so many above it
/// keep all rules, and with it they break one.
fn breach_in(
    isa: InstructionSet,
    alloc: Global,
    drafts: &[Draft],
    draft: &Draft,
    mut rule: PacketRule,
) -> Result<Breach, AllocError>
    requires few { length drafts.now ≤ MOST_BLOCKS }
    requires fine { IsFine isa (draft_of draft.now) }
    requires broken { BreakFirst (map draft_of drafts.now) (draft_of draft.now).issues rule }
    ensures { IfOk result (λ breach. IsBreachIn (map draft_of drafts.now) breach.0 breach.1 (draft_of draft.now)) }
{
    let issues = &draft.issues;
    let mut keep = 0;
    let mut breaks = issues.len();
    while keep + 1 < breaks {
        let middle = keep + (breaks - keep) / 2;
        match judged(alloc, drafts, &issues[..middle])? {
            Ok(_) => keep = middle,
            Err(found) => {
                rule = found;
                breaks = middle;
            }
        }
    }
    Ok((issues[keep].line, rule))
}

/// The instructions of a block in listing order. An error is the first that breaks a rule with those above it.
fn list_of(
    isa: InstructionSet,
    alloc: Global,
    drafts: &[Draft],
    draft: &Draft,
) -> Result<Result<Vec<Placed>, Breach>, AllocError>
    requires few { length drafts.now ≤ MOST_BLOCKS }
    requires fine { IsFine isa (draft_of draft.now) }
    ensures { IfOk result (λ found. MatchResult found
        (λ list. AreLawful (map draft_of drafts.now) (draft_of draft.now).issues list.items)
        (λ breach. IsBreachIn (map draft_of drafts.now) breach.0 breach.1 (draft_of draft.now))) }
{
    match judged(alloc, drafts, &draft.issues)? {
        Ok(list) => Ok(Ok(list)),
        Err(rule) => Ok(Err(breach_in(isa, alloc, drafts, draft, rule)?)),
    }
}

/// The instructions of each block of a text in listing order. An error is the first that breaks a rule with those above it in its
/// block.
pub(crate) fn lists_of(
    isa: InstructionSet,
    alloc: Global,
    drafts: &[Draft],
) -> Result<Result<Vec<Vec<Placed>>, Breach>, AllocError>
    requires few { length drafts.now ≤ MOST_BLOCKS }
    requires fine { All (λ draft. IsFine isa (draft_of draft)) drafts.now }
    ensures { IfOk result (λ found. MatchResult found
        (λ lists. AllZip (λ draft list. AreLawful (map draft_of drafts.now) (draft_of draft).issues list.items)
        drafts.now lists.items)
        (λ breach. IsFirstBreach (map draft_of drafts.now) breach.0 breach.1)) }
{
    let mut lists = Vec::with_capacity(alloc, drafts.len())?;
    for draft in drafts {
        match list_of(isa, alloc, drafts, draft)? {
            Ok(list) => lists.push(list)?,
            Err(breach) => return Ok(Err(breach)),
        }
    }
    Ok(Ok(lists))
}
