//! What a line says, and its first fault.

ghost use Rattle.std.specs.Prelude.{◌≡◌, ◌==◌, false, Ok, Err, Some, None, MatchResult, IsTrue, IfSome, IfOk, IfErr};
ghost use Rattle.std.specs.Option.{option_copied};
ghost use Rattle.c62_token.specs.Token.{begins, words_left};
ghost use Rattle.c62_token.specs.Number.{is_label};
ghost use Rattle.c62_token.specs.Kind.{kinds_of, first_is_open};
ghost use Rattle.c62_line.specs.Mnemonic.{with_kind};
ghost use Rattle.c62_line.specs.Operand.{Finds, operands_of};
ghost use Rattle.c62_op.specs.Shape.{is_branch};
ghost use Rattle.c62_line.specs.Line.{said, names_label, label_alone, target_of, is_storing, letter_written, standing, does, jumps, pause_of, fits_behind, unit_behind, behind_unit, mnemonic_front, instruction_of, condition_front, rest_says, label_front, without_colon, has_colon, is_bars, is_star, head_of, line_of, said_of, label_field, IsHead};
ghost use Rattle.c62_line.specs.Unit.{is_dot};

use crate::fault::{Cause, ReadFault};
use crate::form::make;
use crate::label::Label;
use crate::limits::MOST_LINE;
use crate::mnemonic::{Mnemonic, mnemonic_named};
use crate::operand::read_operands;
use crate::reading::{Reading, Statement};
use crate::unit::{WrittenUnit, first_unit};
use arrayvec::ArrayVec;
use c62_insn::{Cond, InstructionSet, Letter, Op, Operands};
use c62_token::number::{is_label, spells};
use c62_token::{Kind, Tokens, begins_with, is_mark, mark, scan_line};

/// The number of cycles behind NOP, which takes no condition.
#[inline(always)]
#[tactic(auto, unfolding(crate::specs::Line::pause_of))]
fn pause<'a>(cond: Option<Cond>, kinds: &[Kind]) -> Result<Statement<'a>, Cause>
    ensures says { said result ≡ pause_of cond kinds.now }
    ensures label { IfOk result (λ what. IsTrue (names_label what)) }
{
    match (cond, kinds) {
        (None, []) => Ok(Statement::Nop(1)),
        (None, [Kind::Number(cycles)]) => {
            if 1 <= *cycles && *cycles <= 9 {
                Ok(Statement::Nop(*cycles as u8))
            } else {
                Err(Cause::BadOperand)
            }
        }
        _ => Err(Cause::BadOperand),
    }
}

/// A label, and nothing else.
fn label_alone<'a>(rest: Tokens<'a>) -> Option<&'a [u8]>
    ensures value { option_copied result ≡ label_alone (words_left rest.entry) }
    ensures label { IfSome result (λ word. IsTrue (is_label word.now)) }
{
    let (word, rest) = rest.split()?;
    if rest.peek().is_some() || !is_label(word) {
        None
    } else {
        Some(word)
    }
}

/// The label that a branch goes to, where a label is all that is written.
fn target<'a>(mnemonic: Mnemonic, rest: Tokens<'a>) -> Option<&'a [u8]>
    ensures value { option_copied result ≡ target_of mnemonic (words_left rest.entry) }
    ensures label { IfSome result (λ word. IsTrue (is_label word.now)) }
{
    match mnemonic {
        Mnemonic::Operation(Op::B) => label_alone(rest),
        _ => None,
    }
}

pub fn is_storing(mnemonic: Mnemonic) -> bool
    ensures { result ≡ is_storing mnemonic }
{
    match mnemonic {
        Mnemonic::Operation(op) => op.is_store(),
        _ => false,
    }
}

fn letter_written(written: Option<WrittenUnit>) -> Option<Letter>
    ensures { result ≡ letter_written written }
{
    Some(written?.unit.letter)
}

/// The instruction, where its operation has such operands.
#[inline(always)]
fn does<'a>(
    isa: InstructionSet,
    cond: Option<Cond>,
    written: Option<WrittenUnit>,
    read: (Op, Operands),
) -> Result<Statement<'a>, Cause>
    ensures says { said result ≡ does isa cond written (with_kind isa read) }
    ensures label { IfOk result (λ what. IsTrue (names_label what)) }
{
    let (op, operands) = read;
    match make(isa, op, operands, cond, written) {
        Ok(insn) => Ok(Statement::Insn(insn)),
        Err(fault) => {
            if op.has_kind_in(isa, operands) {
                Err(Cause::Form(fault))
            } else {
                Err(Cause::BadOperand)
            }
        }
    }
}

/// The operation and operands that the mnemonic and the tokens behind it stand for.
#[inline(always)]
fn stands_for(
    isa: InstructionSet,
    mnemonic: Mnemonic,
    written: Option<WrittenUnit>,
    kinds: &[Kind],
) -> Option<(Op, Operands)>
    ensures { result ≡ standing mnemonic written (operands_of isa (is_storing mnemonic) kinds.now) }
{
    let operands = read_operands(isa, is_storing(mnemonic), kinds)?;
    mnemonic.stands_for(letter_written(written), operands)
}

#[inline(always)]
fn jumps<'a>(
    isa: InstructionSet,
    cond: Option<Cond>,
    written: Option<WrittenUnit>,
    label: &'a [u8],
) -> Result<Statement<'a>, Cause>
    requires { IsTrue (is_label label.now) }
    ensures says { said result ≡ jumps isa cond written label.now }
    ensures label { IfOk result (λ what. IsTrue (names_label what)) }
{
    match make(isa, Op::B, Operands::Block(0), cond, written) {
        Ok(insn) => Ok(Statement::Jump(insn, label)),
        Err(fault) => Err(Cause::Form(fault)),
    }
}

/// What stands behind the unit.
#[inline(always)]
#[tactic(auto, using(crate::proofs::KindLemmas::too_many_behind), unfolding(crate::specs::Line::behind_unit))]
fn behind_unit<'a>(
    isa: InstructionSet,
    mnemonic: Mnemonic,
    cond: Option<Cond>,
    written: Option<WrittenUnit>,
    rest: Tokens<'a>,
) -> Result<Statement<'a>, Cause>
    ensures says { said result ≡ behind_unit isa mnemonic cond written (words_left rest.entry) }
    ensures label { IfOk result (λ what. IsTrue (names_label what)) }
{
    if let Some(label) = target(mnemonic, rest) {
        return jumps(isa, cond, written, label);
    }
    let mut kinds = ArrayVec::new();
    if !rest.add_kinds(isa, &mut kinds) {
        return Err(Cause::BadOperand);
    }
    if matches!(mnemonic, Mnemonic::Nop) {
        return pause(cond, &kinds);
    }
    match stands_for(isa, mnemonic, written, &kinds) {
        Some(read) => does(isa, cond, written, read),
        None => Err(Cause::BadOperand),
    }
}

/// Whether a bracket stands first.
#[inline(always)]
fn opens_bracket(rest: Tokens<'_>) -> bool
    ensures { result ≡ first_is_open (words_left rest.entry) }
{
    match rest.peek() {
        Some(word) => matches!(mark(word), Some(Kind::Open)),
        None => false,
    }
}

/// The condition, where a bracket stands first, and what follows it. There is none where the bracket begins no condition.
#[inline(always)]
#[tactic(auto, using(crate::proofs::KindLemmas::no_bracket), unfolding(crate::specs::Line::condition_of, crate::specs::Line::condition_front))]
pub fn first_condition<'a>(rest: Tokens<'a>) -> Option<(Option<Cond>, Tokens<'a>)>
    ensures { Finds result (condition_front (words_left rest.entry)) }
{
    if !opens_bracket(rest) {
        return Some((None, rest));
    }
    let Some((Kind::Open, inside)) = rest.split_kind() else {
        return Some((None, rest));
    };
    let (first, behind) = inside.split_kind()?;
    let negated = matches!(first, Kind::Not);
    let (name, behind) = if negated {
        behind.split_kind()?
    } else {
        (first, behind)
    };
    let (close, behind) = behind.split_kind()?;
    match (name, close) {
        (Kind::Register(reg), Kind::Close) => Some((Some(Cond { reg, negated }), behind)),
        _ => None,
    }
}

/// The mnemonic of the set that stands first, and what follows it.
#[inline(always)]
pub fn first_mnemonic<'a>(isa: InstructionSet, rest: Tokens<'a>) -> Option<(Mnemonic, Tokens<'a>)>
    ensures { Finds result (mnemonic_front isa (words_left rest.entry)) }
{
    let (name, rest) = rest.split()?;
    Some((mnemonic_named(isa, name)?, rest))
}

/// Whether the unit, where one is written, may be written behind the mnemonic.
#[inline(always)]
fn fits(written: Option<WrittenUnit>, mnemonic: Mnemonic) -> bool
    ensures { result ≡ fits_behind mnemonic written }
{
    match written {
        Some(written) => written.fits(mnemonic),
        None => true,
    }
}

/// The unit that is written behind the mnemonic, where one is, and what follows it.
#[inline(always)]
pub fn unit_behind<'a>(
    mnemonic: Mnemonic,
    rest: Tokens<'a>,
) -> Option<(Option<WrittenUnit>, Tokens<'a>)>
    ensures { Finds result (unit_behind mnemonic (words_left rest.entry)) }
{
    let (written, rest) = first_unit(rest)?;
    if fits(written, mnemonic) {
        Some((written, rest))
    } else {
        None
    }
}

/// A condition, a mnemonic, a unit and operands.
#[inline(always)]
#[tactic(auto, unfolding(crate::specs::Line::instruction_of))]
fn instruction<'a>(isa: InstructionSet, rest: Tokens<'a>) -> Result<Statement<'a>, Cause>
    ensures says { said result ≡ instruction_of isa (words_left rest.entry) }
    ensures label { IfOk result (λ what. IsTrue (names_label what)) }
{
    let (cond, rest) = first_condition(rest).ok_or(Cause::BadOperand)?;
    let (mnemonic, rest) = first_mnemonic(isa, rest).ok_or(Cause::UnknownMnemonic)?;
    let (written, rest) = unit_behind(mnemonic, rest).ok_or(Cause::BadUnit)?;
    behind_unit(isa, mnemonic, cond, written, rest)
}

/// What these tokens say by the instructions of a set, which stand behind a line's label. A branch's label still stands in the line.
///
/// # Errors
///
/// The first fault, in this order: Directive, BadOperand for a condition that is misspelt, UnknownMnemonic, BadUnit, and
/// what is wrong with the operands or the form (docs/SERIAL_TEXT.md, "Faults of a line").
#[inline(always)]
#[tactic(auto, unfolding(crate::specs::Line::rest_says))]
pub fn read_rest<'a>(isa: InstructionSet, rest: Tokens<'a>) -> Result<Statement<'a>, Cause>
    ensures says { said result ≡ rest_says isa (words_left rest.entry) }
    ensures label { IfOk result (λ what. IsTrue (names_label what)) }
{
    match rest.peek() {
        None => Ok(Statement::Empty),
        Some(word) => if begins_with(b'.', word) {
            Err(Cause::Directive)
        } else {
            instruction(isa, rest)
        },
    }
}

/// The label that stands first, and what follows its colon.
#[tactic(auto, unfolding(crate::specs::Line::label_front))]
pub fn first_label<'a>(line: Tokens<'a>) -> (Option<&'a [u8]>, Tokens<'a>)
    ensures value { label_front (words_left line.entry) ≡ (option_copied result.0, words_left result.1) }
    ensures label { IfSome result.0 (λ word. IsTrue (is_label word.now)) }
{
    let Some((name, behind)) = line.split() else {
        return (None, line);
    };
    let Some(colon) = behind.peek() else {
        return (None, line);
    };
    if is_mark(b':', colon) && is_label(name) {
        (Some(name), behind.behind())
    } else {
        (None, line)
    }
}

/// Whether parallel bars stand first.
fn begins_with_bars(line: Tokens<'_>) -> bool
    ensures { result ≡ is_bars (words_left line.entry) }
{
    match line.peek() {
        Some(word) => spells(b"||", word),
        None => false,
    }
}

/// Whether a colon is left.
fn has_colon(rest: Tokens<'_>) -> bool
    ensures { result ≡ has_colon (words_left rest.entry) }
{
    let mut left = rest;
    while let Some((word, behind)) = left.split() {
        if is_mark(b':', word) {
            return true;
        }
        left = behind;
    }
    false
}

/// The label that stands first and what follows its colon. No other colon may stand before the comment. Where the line's
/// bytes have none, nothing is looked for.
#[tactic(auto, using(crate::proofs::HeadLemmas::no_label))]
fn read_label<'a>(
    line: Tokens<'a>,
    has_colons: bool,
) -> Result<(Option<&'a [u8]>, Tokens<'a>), Cause>
    requires { has_colons ≡ false → has_colon (words_left line) ≡ false }
    ensures value { IsHead result (without_colon (label_front (words_left line.entry))) }
    ensures label { IfOk result (λ head. IfSome head.0 (λ word. IsTrue (is_label word.now))) }
{
    if !has_colons {
        return Ok((None, line));
    }
    let (label, rest) = first_label(line);
    if has_colon(rest) {
        return Err(Cause::BadLabel);
    }
    Ok((label, rest))
}

/// The label of a line, which is without its end, and the tokens that follow it.
///
/// # Errors
///
/// The first fault, in this order: NotAscii, LineTooLong, ParallelBar, and BadLabel where a colon stands elsewhere than
/// behind a label at the front (docs/SERIAL_TEXT.md, "Faults of a line").
#[tactic(auto, using(crate::proofs::HeadLemmas::no_colon_at_all), unfolding(crate::specs::Line::head_of))]
pub fn read_head<'a>(line: &'a [u8]) -> Result<(Option<&'a [u8]>, Tokens<'a>), Cause>
    ensures value { IsHead result (head_of line.now) }
    ensures label { IfOk result (λ head. IfSome head.0 (λ word. IsTrue (is_label word.now))) }
{
    let bytes = scan_line(line);
    if !bytes.allowed {
        return Err(Cause::NotAscii);
    }
    if line.len() > MOST_LINE {
        return Err(Cause::LineTooLong);
    }
    if begins_with(b'*', line) {
        return Ok((None, Tokens::new(&[])));
    }
    let tokens = Tokens::new(line);
    if begins_with_bars(tokens) {
        return Err(Cause::ParallelBar);
    }
    read_label(tokens, bytes.colon)
}

/// The reading of one line by the instructions of a set, which takes no memory. The line is without its end.
///
/// # Errors
///
/// The first fault of the line, which carries the line 1. All is judged but what needs other lines: whether an earlier line has the label, whether some line has the label that a
/// branch goes to, and how many instructions and blocks there are (docs/SERIAL_TEXT.md, "Faults of a line").
#[tactic(auto, unfolding(crate::specs::Line::line_of))]
pub fn read_insn(isa: InstructionSet, line: &[u8]) -> Result<Reading, ReadFault>
    ensures reading { IfOk result (λ reading. line_of isa line.now ≡ Ok (reading.label, said_of reading.what)) }
    ensures cause { IfErr result (λ fault. line_of isa line.now ≡ Err fault.cause) }
    ensures line { IfErr result (λ fault. fault.line ≡ 1) }
{
    let (label, rest) = match read_head(line) {
        Ok(head) => head,
        Err(cause) => return Err(ReadFault::at(1, cause)),
    };
    match read_rest(isa, rest) {
        Ok(what) => Ok(Reading {
            label: owned_label(label),
            what: what.owned(),
        }),
        Err(cause) => Err(ReadFault::at(1, cause)),
    }
}

/// The label of these bytes, where there are any.
pub fn owned_label(label: Option<&[u8]>) -> Option<Label>
    requires { IfSome label (λ word. IsTrue (is_label word.now)) }
    ensures { result ≡ option_copied label.entry }
{
    match label {
        Some(word) => Some(Label::new(word)),
        None => None,
    }
}

/// The label in the label field of a line that may have one.
#[tactic(auto, using(crate::proofs::LabelFields::star_field), unfolding(crate::specs::Line::label_field))]
fn label_of(line: &[u8]) -> Option<&[u8]>
    ensures { option_copied result ≡ label_field line.now }
{
    if begins_with(b'*', line) {
        return None;
    }
    first_label(Tokens::new(line)).0
}

/// The label in a line's label field, decided for the line alone: the part left of its first colon, without the blanks
/// around it, where that is a label and the line is no comment line (docs/SERIAL_TEXT.md, "Labels and blocks").
#[tactic(auto, using(crate::proofs::HeadLemmas::plain_field))]
pub fn label_field(line: &[u8]) -> Option<&[u8]>
    ensures { option_copied result ≡ label_field line.now }
{
    if !scan_line(line).colon {
        return None;
    }
    label_of(line)
}
