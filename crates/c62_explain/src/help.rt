//! What may help where a line has a fault.

ghost use Rattle.std.specs.Prelude.{◌≡◌, ◌++◌, map, IfOk, OnOk};
ghost use Rattle.std.specs.List.{flat_map};
ghost use Rattle.c62_explain.specs.Picture.{AddsHelp, IsHelp, hint};

use crate::colon::colon_help;
use crate::mnemonic::push_mnemonic_help;
use crate::near::is_near;
use crate::operands::{push_forms, push_letters, push_range, push_sides};
use crate::picture::{push_margin, push_number};
use c62_insn::FormFault;
use c62_line::{
    Cause, Mnemonic, ReadFault, first_condition, first_label, first_mnemonic, label_field,
    unit_behind,
};
use c62_op::InstructionSet;
use c62_place::{Place, Sort, operands_end};
use c62_read::first_line;
use c62_token::number::{is_label, spells};
use c62_token::{Tokens, begins_with};
use std::alloc::{AllocError, Global};

/// A faulty line of a text.
#[derive(Clone, Copy)]
pub(crate) struct Faulty<'a> {
    pub text: &'a [u8],
    pub line: &'a [u8],
    pub fault: ReadFault,
    pub place: Place,
}

/// How a comment is written.
pub(crate) const COMMENT: &[u8] =
    b"a comment begins with `;`, or with `*` as the first byte of its line";

/// Adds words, one behind the other.
fn push_words(out: &mut Vec<u8>, words: &[&[u8]]) -> Result<(), AllocError>
    ensures { OnOk result (out.new.items ≡ out.old.items ++ flat_map (λ word. word) (map (λ word. word.now) words.now)) }
{
    for word in words {
        out.extend_from_slice(word)?;
    }
    Ok(())
}

/// Adds a line of help for the line of this number: these words, one behind the other.
///
/// # Errors
///
/// `AllocError` where memory ran out.
pub fn push_hint(out: &mut Vec<u8>, number: u32, words: &[&[u8]]) -> Result<(), AllocError>
    ensures { OnOk result (out.new.items ≡ out.old.items ++ hint number (map (λ word. word.now) words.now)) }
{
    push_margin(out, number)?;
    out.extend_from_slice(b" = help: ")?;
    push_words(out, words)?;
    out.extend_from_slice(b"\n")
}

impl<'a> Faulty<'a> {
    /// The token at which the fault is found.
    pub(crate) fn word(self) -> &'a [u8] {
        let start = self.place.start.min(self.line.len());
        let behind = &self.line[start..];
        &behind[..self.place.len.min(behind.len())]
    }

    /// The tokens behind the one at which the fault is found.
    pub(crate) fn behind(self) -> Tokens<'a> {
        let start = self.place.start.min(self.line.len());
        let behind = &self.line[start..];
        Tokens::new(&behind[self.place.len.min(behind.len())..])
    }

    pub(crate) fn push(self, out: &mut Vec<u8>, words: &[&[u8]]) -> Result<(), AllocError>
        ensures { OnOk result (AddsHelp self.entry.fault.line out.old.items out.new.items) }
    {
        push_hint(out, self.fault.line, words)
    }

    /// The mnemonic of the line, and the tokens behind it.
    fn mnemonic(self, isa: InstructionSet) -> Option<(Mnemonic, Tokens<'a>)> {
        let (_label, rest) = first_label(Tokens::new(self.line));
        let (_cond, rest) = first_condition(rest)?;
        first_mnemonic(isa, rest)
    }
}

/// The nearest label of the text: the same in another case, or one letter off.
fn nearest_label<'a>(text: &'a [u8], word: &[u8]) -> Option<&'a [u8]> {
    let mut rest = text;
    while let Some((line, after)) = first_line(rest) {
        if let Some(label) = label_field(line) {
            if spells(label, word) || is_near(label, word) {
                return Some(label);
            }
        }
        rest = after;
    }
    None
}

/// The number of the first line with this label.
fn line_with_label(text: &[u8], word: &[u8]) -> u32 {
    let mut rest = text;
    let mut number: u32 = 1;
    while let Some((line, after)) = first_line(rest) {
        if label_field(line) == Some(word) {
            return number;
        }
        number = number.saturating_add(1);
        rest = after;
    }
    0
}

#[tactic(auto, using(crate::proofs::HintLemmas::adds_none, crate::proofs::HintLemmas::adds_behind_on))]
fn push_target_help(out: &mut Vec<u8>, at: Faulty<'_>) -> Result<(), AllocError>
    ensures { OnOk result (AddsHelp at.entry.fault.line out.old.items out.new.items) }
{
    if line_with_label(at.text, at.word()) != 0 {
        return at.push(
            out,
            &[
                at.word(),
                b" is in a section of data, which c62 doesn't read: put the data into memory by `--load`, and write its address as a number",
            ],
        );
    }
    match nearest_label(at.text, at.word()) {
        Some(label) => at.push(out, &[b"the nearest label is ", label]),
        None => Ok(()),
    }
}

#[tactic(auto, using(crate::proofs::HintLemmas::adds_none, crate::proofs::HintLemmas::adds_behind_on))]
fn push_label_help(out: &mut Vec<u8>, at: Faulty<'_>, alloc: Global) -> Result<(), AllocError>
    ensures { OnOk result (AddsHelp at.entry.fault.line out.old.items out.new.items) }
{
    let mut number = Vec::new(alloc);
    push_number(&mut number, u64::from(line_with_label(at.text, at.word())))?;
    at.push(out, &[b"line ", &number, b" has it"])
}

/// Whether the word is a letter of a register file and a number.
fn looks_like_register(word: &[u8]) -> bool {
    match word {
        [b'A' | b'B' | b'a' | b'b', first, ..] => first.is_ascii_digit(),
        _ => false,
    }
}

fn begins_with_digit(word: &[u8]) -> bool {
    match word {
        [] => false,
        [first, ..] => first.is_ascii_digit(),
    }
}

/// The operands of a line as far as they are right, and what may come next.
#[derive(Drop)]
struct Operands {
    mnemonic: Mnemonic,
    /// The tokens that begin the operands of a form, and one more for the token that is asked for.
    sorts: Vec<Sort>,
}

impl Operands {
    /// The operands of a line whose label, condition, mnemonic and unit are right.
    fn of(
        isa: InstructionSet,
        alloc: Global,
        at: Faulty<'_>,
    ) -> Result<Option<Operands>, AllocError> {
        let Some((mnemonic, rest)) = at.mnemonic(isa) else {
            return Ok(None);
        };
        let Some((_unit, rest)) = unit_behind(mnemonic, rest) else {
            return Ok(None);
        };
        let mut sorts = sorts_of(isa, alloc, rest)?;
        sorts.truncate(operands_end(isa, mnemonic, &sorts));
        sorts.push(Sort::Other)?;
        Ok(Some(Operands { mnemonic, sorts }))
    }

    /// Whether some form goes on with a token of this sort.
    fn wants(&mut self, isa: InstructionSet, sort: Sort) -> bool {
        if let Some(last) = self.sorts.last_mut() {
            *last = sort;
        }
        operands_end(isa, self.mnemonic, &self.sorts) == self.sorts.len()
    }
}

/// What sorts of tokens are left.
fn sorts_of(isa: InstructionSet, alloc: Global, rest: Tokens<'_>) -> Result<Vec<Sort>, AllocError> {
    let mut sorts = Vec::new(alloc);
    let mut left = rest;
    while let Some((word, behind)) = left.split() {
        sorts.push(Sort::of(isa, word))?;
        left = behind;
    }
    Ok(sorts)
}

/// What is told of a name where a register is wanted.
fn register_help(word: &[u8]) -> Option<&'static [u8]> {
    if looks_like_register(word) {
        Some(b"the registers are A0 to A15 and B0 to B15")
    } else if spells(b"SP", word) {
        Some(b"the stack pointer is written as B15")
    } else if spells(b"DP", word) {
        Some(b"the data pointer is written as B14")
    } else if spells(b"FP", word) {
        Some(b"the frame pointer is written as A15")
    } else {
        None
    }
}

/// What is told of a word that is no number where a number is wanted.
fn number_help(word: &[u8]) -> Option<&'static [u8]> {
    if begins_with_digit(word) {
        Some(b"a number is decimal without a 0 in front, or 0x and hexadecimal digits")
    } else if is_label(word) {
        Some(b"symbols aren't known: write the number")
    } else {
        None
    }
}

/// What is told of a word with which no operands go on, where something is known of it.
fn word_help(isa: InstructionSet, mut operands: Operands, word: &[u8]) -> Option<&'static [u8]> {
    if word.is_empty() {
        return Some(b"the line ends here, and operands are missing");
    }
    if begins_with(b'/', word) || begins_with(b'#', word) {
        return Some(COMMENT);
    }
    if begins_with(b'(', word) || begins_with(b'[', word) {
        return Some(b"an offset is written with a sign and in brackets, as *+A4[2]");
    }
    if operands.wants(isa, Sort::Comma) {
        return Some(b"a comma is wanted here");
    }
    if operands.wants(isa, Sort::Register) {
        if let Some(help) = register_help(word) {
            return Some(help);
        }
    }
    if operands.wants(isa, Sort::Number) {
        return number_help(word);
    }
    None
}

/// What is known of a word with which no operands go on.
#[tactic(auto, using(crate::proofs::HintLemmas::adds_none, crate::proofs::HintLemmas::adds_behind_on))]
fn push_word_help(
    isa: InstructionSet,
    out: &mut Vec<u8>,
    at: Faulty<'_>,
    operands: Operands,
) -> Result<(), AllocError>
    ensures { OnOk result (AddsHelp at.entry.fault.line out.old.items out.new.items) }
{
    if let Mnemonic::Nop = operands.mnemonic {
        return Ok(());
    }
    match word_help(isa, operands, at.word()) {
        Some(help) => at.push(out, &[help]),
        None => Ok(()),
    }
}

/// The forms that the mnemonic has.
#[tactic(auto, using(crate::proofs::HintLemmas::adds_none, crate::proofs::HintLemmas::adds_behind_on))]
fn push_forms_help(
    isa: InstructionSet,
    out: &mut Vec<u8>,
    at: Faulty<'_>,
    mnemonic: Mnemonic,
    alloc: Global,
) -> Result<(), AllocError>
    ensures { OnOk result (AddsHelp at.entry.fault.line out.old.items out.new.items) }
{
    let mut forms = Vec::new(alloc);
    push_forms(isa, &mut forms, mnemonic)?;
    at.push(out, &[&forms])
}

#[tactic(auto, using(crate::proofs::HintLemmas::adds_none, crate::proofs::HintLemmas::adds_behind_on))]
fn push_operand_help(
    isa: InstructionSet,
    out: &mut Vec<u8>,
    at: Faulty<'_>,
    alloc: Global,
) -> Result<(), AllocError>
    ensures { OnOk result (AddsHelp at.entry.fault.line out.old.items out.new.items) }
{
    let Some(operands) = Operands::of(isa, alloc, at)? else {
        return at.push(
            out,
            &[b"a condition is [R] or [!R] with R one of A1, A2, B0, B1 and B2"],
        );
    };
    let mnemonic = operands.mnemonic;
    push_word_help(isa, out, at, operands)?;
    push_forms_help(isa, out, at, mnemonic, alloc)
}

/// Help for a unit that is written with a cross path and has none.
#[tactic(auto, using(crate::proofs::HintLemmas::adds_none))]
fn push_path_help(out: &mut Vec<u8>, at: Faulty<'_>) -> Result<(), AllocError>
    ensures { OnOk result (AddsHelp at.entry.fault.line out.old.items out.new.items) }
{
    match at.word() {
        [b'.', b'D' | b'd', _, b'X' | b'x'] => at.push(out, &[b"a unit .D has no cross path"]),
        _ => Ok(()),
    }
}

#[tactic(auto, using(crate::proofs::HintLemmas::adds_none, crate::proofs::HintLemmas::adds_behind_on))]
fn push_unit_help(
    isa: InstructionSet,
    out: &mut Vec<u8>,
    at: Faulty<'_>,
    alloc: Global,
) -> Result<(), AllocError>
    ensures { OnOk result (AddsHelp at.entry.fault.line out.old.items out.new.items) }
{
    let Some((mnemonic, _)) = at.mnemonic(isa) else {
        return Ok(());
    };
    push_path_help(out, at)?;
    let mut letters = Vec::new(alloc);
    push_letters(&mut letters, mnemonic)?;
    at.push(out, &[&letters])
}

#[tactic(auto, using(crate::proofs::HintLemmas::adds_none, crate::proofs::HintLemmas::adds_behind_on))]
fn push_range_help(
    isa: InstructionSet,
    out: &mut Vec<u8>,
    at: Faulty<'_>,
    alloc: Global,
) -> Result<(), AllocError>
    ensures { OnOk result (AddsHelp at.entry.fault.line out.old.items out.new.items) }
{
    let Some((mnemonic, rest)) = at.mnemonic(isa) else {
        return Ok(());
    };
    let mut range = Vec::new(alloc);
    push_range(isa, &mut range, alloc, mnemonic, rest)?;
    at.push(out, &[&range])
}

#[tactic(auto, using(crate::proofs::HintLemmas::adds_none, crate::proofs::HintLemmas::adds_behind_on))]
fn push_side_help(
    isa: InstructionSet,
    out: &mut Vec<u8>,
    at: Faulty<'_>,
    alloc: Global,
) -> Result<(), AllocError>
    ensures { OnOk result (AddsHelp at.entry.fault.line out.old.items out.new.items) }
{
    let Some((_, rest)) = at.mnemonic(isa) else {
        return Ok(());
    };
    let mut sides = Vec::new(alloc);
    push_sides(isa, &mut sides, rest)?;
    at.push(out, &[&sides])
}

#[tactic(auto, using(crate::proofs::HintLemmas::adds_none, crate::proofs::HintLemmas::adds_behind_on))]
fn push_form_help(
    isa: InstructionSet,
    out: &mut Vec<u8>,
    at: Faulty<'_>,
    fault: FormFault,
    alloc: Global,
) -> Result<(), AllocError>
    ensures { OnOk result (AddsHelp at.entry.fault.line out.old.items out.new.items) }
{
    match fault {
        FormFault::BadCondition => Ok(()),
        FormFault::ConstantRange => push_range_help(isa, out, at, alloc),
        FormFault::TwoCrossed => {
            push_side_help(isa, out, at, alloc)?;
            at.push(
                out,
                &[b"one source comes over the cross path: bring the other one over by MV first"],
            )
        }
        FormFault::BadSide => push_side_help(isa, out, at, alloc),
        FormFault::NoUnit => {
            push_side_help(isa, out, at, alloc)?;
            push_unit_help(isa, out, at, alloc)
        }
    }
}

/// Lines of help for a fault, where something is known that helps.
#[tactic(auto, using(crate::proofs::HintLemmas::adds_none, crate::proofs::HintLemmas::adds_behind_on))]
fn push_help(
    isa: InstructionSet,
    out: &mut Vec<u8>,
    at: Faulty<'_>,
    alloc: Global,
) -> Result<(), AllocError>
    ensures { OnOk result (AddsHelp at.entry.fault.line out.old.items out.new.items) }
{
    match at.fault.cause {
        Cause::UnknownMnemonic => push_mnemonic_help(isa, out, at),
        Cause::BadUnit => push_unit_help(isa, out, at, alloc),
        Cause::BadOperand => push_operand_help(isa, out, at, alloc),
        Cause::Form(fault) => push_form_help(isa, out, at, fault, alloc),
        Cause::UnknownTarget => push_target_help(out, at),
        Cause::DuplicateLabel => push_label_help(out, at, alloc),
        Cause::BadLabel => at.push(out, &[colon_help(at)]),
        Cause::Directive => at.push(
            out,
            &[b"`adopt` reads texts with directives, and docs/ADOPT.md says which"],
        ),
        Cause::ParallelBar => at.push(out, &[b"`adopt` reads packets, and `sim` a listing"]),
        _ => Ok(()),
    }
}

/// Lines of help for a fault, none where nothing is known that helps.
#[tactic(auto, using(crate::proofs::HintLemmas::is_help))]
pub(crate) fn help_of(
    isa: InstructionSet,
    alloc: Global,
    at: Faulty<'_>,
) -> Result<Vec<u8>, AllocError>
    ensures { IfOk result (λ out. IsHelp at.entry.fault.line out.items) }
{
    let mut out = Vec::new(alloc);
    push_help(isa, &mut out, at, alloc)?;
    Ok(out)
}

/// Lines of help for a fault of this line, which stands in a text; none where nothing is known that helps.
///
/// # Errors
///
/// `AllocError` where memory ran out.
pub fn line_help(
    isa: InstructionSet,
    alloc: Global,
    text: &[u8],
    line: &[u8],
    fault: ReadFault,
    place: Place,
) -> Result<Vec<u8>, AllocError>
    ensures { IfOk result (λ out. IsHelp fault.line out.items) }
{
    let at = Faulty {
        text,
        line,
        fault,
        place,
    };
    help_of(isa, alloc, at)
}
