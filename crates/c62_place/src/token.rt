//! At which token of a line a fault is found.

ghost use Rattle.std.specs.Prelude.{◌≡◌, ◌≤◌, ◌<◌, ◌+◌, ◌^◌, length, IfOk, IfSome};
ghost use Rattle.std.specs.Option.{option_copied};
ghost use Rattle.c62_token.specs.Token.{words_left};
ghost use Rattle.c62_token.specs.Kind.{kinds_in};
ghost use Rattle.c62_line.specs.Line.{condition_front, mnemonic_front, unit_behind};
ghost use Rattle.c62_place.specs.Sort.{sorts_of};
ghost use Rattle.c62_place.specs.Place.{behind_label, condition_tokens, constant_token, faulty_token, first_colon, first_far, first_number, has_more, instruction_token, is_conditional_pause, is_far, is_number, is_number_alone, label_tokens, mark_length, operand_token, unit_tokens, whole_token, by_unit, by_mnemonic};

use crate::shape::{condition_end, operands_end, pause_end};
use crate::sort::Sort;
use c62_insn::{Cond, FormFault};
use c62_line::{
    Cause, Mark, Mnemonic, WrittenUnit, first_condition, first_label, first_mnemonic, unit_behind,
};
use c62_op::InstructionSet;
use c62_token::{Kind, Tokens};
use std::alloc::{AllocError, Global};

/// What sorts of tokens are left.
fn sorts_left(isa: InstructionSet, alloc: Global, rest: Tokens<'_>) -> Result<Vec<Sort>, AllocError>
    ensures { IfOk result (λ sorts. sorts.items ≡ sorts_of isa (words_left rest.entry)) }
{
    let mut sorts = Vec::new(alloc);
    let mut left = rest;
    while let Some((word, behind)) = left.split() {
        sorts.push(Sort::of(isa, word))?;
        left = behind;
    }
    Ok(sorts)
}

/// What the tokens that are left are to the reader of the set.
fn kinds_left(isa: InstructionSet, alloc: Global, rest: Tokens<'_>) -> Result<Vec<Kind>, AllocError>
    ensures { IfOk result (λ kinds. kinds.items ≡ kinds_in isa (words_left rest.entry)) }
{
    let mut kinds = Vec::new(alloc);
    let mut left = rest;
    while let Some((kind, behind)) = left.split_kind() {
        kinds.push(kind.read_in(isa))?;
        left = behind;
    }
    Ok(kinds)
}

fn label_tokens(label: Option<&[u8]>) -> usize
    ensures same { result ≡ label_tokens (option_copied label.entry) }
    ensures few { result ≤ 2 }
{
    match label {
        Some(_) => 2,
        None => 0,
    }
}

fn condition_tokens(cond: Option<Cond>) -> usize
    ensures same { result ≡ condition_tokens cond }
    ensures few { result ≤ 4 }
{
    match cond {
        Some(cond) => if cond.negated { 4 } else { 3 },
        None => 0,
    }
}

fn mark_length(mark: Mark) -> usize
    ensures same { result ≡ mark_length mark }
    ensures few { result ≤ 2 }
{
    match mark {
        Mark::Plain => 0,
        Mark::Cross => 1,
        Mark::Path(_) => 2,
    }
}

/// Whether the token that stands first goes on behind this unit.
fn has_more(written: WrittenUnit, rest: Tokens<'_>) -> bool
    ensures { result ≡ has_more written (words_left rest.entry) }
{
    match rest.peek() {
        Some(word) => 3 + mark_length(written.mark) < word.len(),
        None => false,
    }
}

/// How many of these tokens, which stand behind a mnemonic, the unit has.
fn unit_tokens(written: Option<WrittenUnit>, rest: Tokens<'_>) -> usize
    ensures same { result ≡ unit_tokens written (words_left rest.entry) }
    ensures few { result ≤ 1 }
{
    match written {
        Some(written) => usize::from(!has_more(written, rest)),
        None => 0,
    }
}

fn is_number(kind: Kind) -> bool
    ensures { result ≡ is_number kind }
{
    matches!(kind, Kind::Number(_))
}

fn is_far(kind: Kind) -> bool
    ensures { result ≡ is_far kind }
{
    match kind {
        Kind::Number(k) => !(0 <= k && k <= 31),
        _ => false,
    }
}

fn first_far(kinds: &[Kind]) -> Option<usize>
    ensures value { result ≡ first_far kinds.now }
    ensures bound { IfSome result (λ index. index < length kinds.now) }
{
    kinds.iter().position(|kind| is_far(*kind))
}

fn first_number(kinds: &[Kind]) -> Option<usize>
    ensures value { result ≡ first_number kinds.now }
    ensures bound { IfSome result (λ index. index < length kinds.now) }
{
    kinds.iter().position(|kind| is_number(*kind))
}

/// The first constant outside 0 to 31, or else the first.
fn constant_token(kinds: &[Kind]) -> usize
    ensures same { result ≡ constant_token kinds.now }
    ensures within { result ≤ length kinds.now }
{
    match first_far(kinds) {
        Some(index) => index,
        None => first_number(kinds).unwrap_or(0),
    }
}

fn first_colon(sorts: &[Sort]) -> Option<usize>
    ensures value { result ≡ first_colon sorts.now }
    ensures bound { IfSome result (λ index. index < length sorts.now) }
{
    sorts.iter().position(|sort| Sort::Colon.is_same(*sort))
}

fn is_number_alone(sorts: &[Sort]) -> bool
    ensures { result ≡ is_number_alone sorts.now }
{
    matches!(sorts, [Sort::Number])
}

/// The first of the tokens behind the unit with which no operands of the mnemonic go on.
fn operand_token(isa: InstructionSet, mnemonic: Mnemonic, sorts: &[Sort]) -> usize
    ensures same { result ≡ operand_token isa mnemonic sorts.now }
    ensures within { result ≤ length sorts.now }
{
    match mnemonic {
        Mnemonic::Nop => if is_number_alone(sorts) {
            0
        } else {
            pause_end(sorts)
        },
        _ => operands_end(isa, mnemonic, sorts),
    }
}

fn is_conditional_pause(mnemonic: Mnemonic, cond: Option<Cond>) -> bool
    ensures { result ≡ is_conditional_pause mnemonic cond }
{
    matches!((mnemonic, cond), (Mnemonic::Nop, Some(_)))
}

/// The token of a fault, where all up to the operands is right: `unit` is how many tokens the unit has.
fn whole_token(
    isa: InstructionSet,
    alloc: Global,
    fault: Cause,
    cond: Option<Cond>,
    mnemonic: Mnemonic,
    unit: usize,
    rest: Tokens<'_>,
) -> Result<usize, AllocError>
    requires { unit ≤ 1 }
    ensures same { IfOk result (λ token. token ≡ whole_token isa fault cond mnemonic unit (words_left rest.entry)) }
    ensures few { IfOk result (λ token. token < 2 ^ 63 + 8) }
{
    let front = condition_tokens(cond) + 1 + unit;
    match fault {
        Cause::Form(FormFault::BadCondition) => Ok(condition_tokens(cond).saturating_sub(2)),
        Cause::Form(FormFault::ConstantRange) => Ok(
            front + constant_token(&kinds_left(isa, alloc, rest)?),
        ),
        Cause::Form(_) => Ok(front - 1),
        Cause::BadOperand => if is_conditional_pause(mnemonic, cond) {
            Ok(0)
        } else {
            Ok(front + operand_token(isa, mnemonic, &sorts_left(isa, alloc, rest)?))
        },
        _ => Ok(front),
    }
}

/// The token of a fault behind the label.
#[tactic(auto, unfolding(crate::specs::Place::instruction_token))]
fn instruction_token(
    isa: InstructionSet,
    alloc: Global,
    fault: Cause,
    rest: Tokens<'_>,
) -> Result<usize, AllocError>
    ensures same { IfOk result (λ token. token ≡ instruction_token isa fault (words_left rest.entry)) }
    ensures few { IfOk result (λ token. token < 2 ^ 63 + 8) }
{
    let Some((cond, rest)) = first_condition(rest) else {
        // A condition has registers by their own names alone.
        let sorts = sorts_left(InstructionSet::Core, alloc, rest)?;
        return Ok(condition_end(&sorts));
    };
    let Some((mnemonic, at_unit)) = first_mnemonic(isa, rest) else {
        return Ok(condition_tokens(cond));
    };
    let Some((written, rest)) = unit_behind(mnemonic, at_unit) else {
        return Ok(condition_tokens(cond) + 1);
    };
    whole_token(
        isa,
        alloc,
        fault,
        cond,
        mnemonic,
        unit_tokens(written, at_unit),
        rest,
    )
}

fn behind_label(
    isa: InstructionSet,
    alloc: Global,
    fault: Cause,
    rest: Tokens<'_>,
) -> Result<usize, AllocError>
    ensures same { IfOk result (λ token. token ≡ behind_label isa fault (words_left rest.entry)) }
    ensures few { IfOk result (λ token. token < 2 ^ 63 + 8) }
{
    match fault {
        Cause::BadLabel => Ok(first_colon(&sorts_left(isa, alloc, rest)?).unwrap_or(0)),
        Cause::Directive | Cause::TooManyInstructions => Ok(0),
        _ => instruction_token(isa, alloc, fault, rest),
    }
}

/// How many of a line's tokens stand before the one at which this fault of it is found (docs/FAULTS.md, "Where a fault is
/// found").
///
/// # Errors
///
/// `AllocError` where memory ran out.
#[tactic(auto, unfolding(crate::specs::Place::faulty_token))]
pub(crate) fn faulty_token(
    isa: InstructionSet,
    alloc: Global,
    fault: Cause,
    line: Tokens<'_>,
) -> Result<usize, AllocError>
    ensures { IfOk result (λ token. token ≡ faulty_token isa fault (words_left line.entry)) }
{
    match fault {
        Cause::ParallelBar | Cause::DuplicateLabel | Cause::TooManyBlocks => Ok(0),
        _ => {
            let (label, rest) = first_label(line);
            Ok(label_tokens(label) + behind_label(isa, alloc, fault, rest)?)
        }
    }
}
