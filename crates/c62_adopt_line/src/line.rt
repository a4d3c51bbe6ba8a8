//! What a line of packets says, and its first fault.

ghost use Rattle.c62_line.specs.declared.limits.TheConstants.{MOST_LINE};
ghost use Rattle.std.specs.Prelude.{◌≡◌, ◌≤◌, length, true, Ok, MatchResult, IfSome};
ghost use Rattle.std.specs.Option.{option_copied};
ghost use Rattle.c62_token.specs.Token.{words_left, tokens};
ghost use Rattle.c62_line.specs.Line.{said_of, label_field};
ghost use Rattle.c62_adopt_line.specs.Plain.{undotted};
ghost use Rattle.c62_adopt_line.specs.Line.{line_written, lacks_unit, has_colon, instruction_says, directive_says, statement_says, from_solid, behind_bars, behind_colon, with_label, with_bars, line_says, plain_says, Fails};

use crate::directive::lays_nothing;
use crate::fault::LineFault;
use crate::plain::{push_plain, undotted};
use c62_line::{Cause, Label, MOST_LINE, What, label_field, owned_label, read_rest};
use c62_op::InstructionSet;
use c62_token::{Tokens, begins_with, scan_line};

/// What a line says.
#[derive(PartialEq, Eq, Debug, Drop)]
pub struct Written {
    /// Whether bars stand first: what the line says stands beside what is above.
    pub beside: bool,
    pub label: Option<Label>,
    pub what: What,
}

/// Whether the unit of an instruction is left out.
fn lacks_unit(what: &What) -> bool
    ensures { result ≡ lacks_unit (said_of what.now) }
{
    match what {
        What::Insn(insn) | What::Jump(insn, _) => insn.unit().is_none(),
        What::Empty | What::Nop(_) => false,
    }
}

/// What the line of serial text says that stands for an instruction.
#[tactic(auto, using(crate::proofs::SpacedWords::plain_back))]
fn read_plain(isa: InstructionSet, text: &mut Vec<u8>, bytes: &[u8]) -> Result<What, LineFault>
    ensures { MatchResult result (λ what. plain_says isa (tokens bytes.now) ≡ Ok (said_of what))
        (λ fault. Fails fault (plain_says isa (tokens bytes.now))) }
{
    text.clear();
    push_plain(text, Tokens::new(bytes))?;
    match read_rest(isa, Tokens::new(text)) {
        Ok(statement) => {
            let what = statement.owned();
            if lacks_unit(&what) {
                Err(LineFault::UnitWanted)
            } else {
                Ok(what)
            }
        }
        Err(cause) => Err(LineFault::Read(cause)),
    }
}

/// Whether a colon stands before any comment.
fn has_colon(bytes: &[u8]) -> bool
    ensures { result ≡ has_colon bytes.now }
{
    bytes.iter().take_while(|b| **b != b';').any(|b| *b == b':')
}

#[tactic(auto, unfolding(crate::specs::Line::instruction_says))]
fn read_instruction(
    isa: InstructionSet,
    text: &mut Vec<u8>,
    bytes: &[u8],
) -> Result<What, LineFault>
    requires { length bytes.now ≤ MOST_LINE }
    ensures { MatchResult result (λ what. instruction_says isa bytes.now ≡ Ok (said_of what))
        (λ fault. Fails fault (instruction_says isa bytes.now)) }
{
    if has_colon(bytes) {
        return Err(LineFault::Read(Cause::BadLabel));
    }
    read_plain(isa, text, &undotted(false, bytes))
}

fn read_directive(beside: bool, words: Tokens<'_>) -> Result<What, LineFault>
    ensures { MatchResult result (λ what. directive_says beside (words_left words.entry) ≡ Ok (said_of what))
        (λ fault. Fails fault (directive_says beside (words_left words.entry))) }
{
    if !beside && lays_nothing(words) {
        Ok(What::Empty)
    } else {
        Err(LineFault::Read(Cause::Directive))
    }
}

/// What stands behind the bars, or behind the label where there is one.
#[tactic(auto, unfolding(crate::specs::Line::statement_says))]
fn read_statement(
    isa: InstructionSet,
    text: &mut Vec<u8>,
    beside: bool,
    bytes: &[u8],
) -> Result<What, LineFault>
    requires { length bytes.now ≤ MOST_LINE }
    ensures { MatchResult result (λ what. statement_says isa beside bytes.now ≡ Ok (said_of what))
        (λ fault. Fails fault (statement_says isa beside bytes.now)) }
{
    let words = Tokens::new(bytes);
    match words.peek() {
        None => {
            if beside {
                Err(LineFault::Read(Cause::UnknownMnemonic))
            } else {
                Ok(What::Empty)
            }
        }
        Some(word) => {
            if begins_with(b'.', word) {
                read_directive(beside, words)
            } else {
                read_instruction(isa, text, bytes)
            }
        }
    }
}

/// The line from its first byte on that is no blank.
pub fn from_solid(line: &[u8]) -> &[u8]
    ensures solid { result.now ≡ from_solid line.now }
    ensures shorter { length result.now ≤ length line.now }
{
    let mut rest = line;
    while let [b, behind @ ..] = rest {
        if *b != b' ' && *b != b'\t' {
            return rest;
        }
        rest = behind;
    }
    rest
}

/// What stands behind the bars, where these stand first.
pub fn behind_bars(line: &[u8]) -> Option<&[u8]>
    ensures bars { option_copied result ≡ behind_bars line.now }
    ensures shorter { IfSome result (λ rest. length rest.now ≤ length line.now) }
{
    from_solid(line).strip_prefix(b"||")
}

/// What stands behind the first colon.
pub fn behind_colon(line: &[u8]) -> &[u8]
    ensures behind { result.now ≡ behind_colon line.now }
    ensures shorter { length result.now ≤ length line.now }
{
    let mut rest = line;
    while let [b, behind @ ..] = rest {
        if *b == b':' {
            return behind;
        }
        rest = behind;
    }
    rest
}

/// What a line without bars says whose label is this one.
fn read_labelled(
    isa: InstructionSet,
    text: &mut Vec<u8>,
    line: &[u8],
    label: Option<Label>,
) -> Result<Written, LineFault>
    requires { length line.now ≤ MOST_LINE }
    ensures { MatchResult result (λ written. with_label isa line.now label ≡ Ok (line_written written))
        (λ fault. Fails fault (with_label isa line.now label)) }
{
    let statement = match label {
        Some(_) => behind_colon(line),
        None => line,
    };
    Ok(Written {
        beside: false,
        what: read_statement(isa, text, false, statement)?,
        label,
    })
}

/// The label of a line, with `_` in place of dots.
#[tactic(auto, using(crate::proofs::Labels::field_is_label, crate::proofs::Labels::no_colon_no_label))]
pub fn label_of(line: &[u8]) -> Option<Label>
    requires { length line.now ≤ MOST_LINE }
    ensures { result ≡ label_field (undotted true line.now) }
{
    if !scan_line(line).colon {
        return None;
    }
    owned_label(label_field(&undotted(true, line)))
}

/// What a line says that is no comment.
fn read_fronted(isa: InstructionSet, text: &mut Vec<u8>, line: &[u8]) -> Result<Written, LineFault>
    requires { length line.now ≤ MOST_LINE }
    ensures { MatchResult result (λ written. with_bars isa line.now (behind_bars line.now) ≡ Ok (line_written written))
        (λ fault. Fails fault (with_bars isa line.now (behind_bars line.now))) }
{
    match behind_bars(line) {
        Some(rest) => Ok(Written {
            beside: true,
            label: None,
            what: read_statement(isa, text, true, rest)?,
        }),
        None => read_labelled(isa, text, line, label_of(line)),
    }
}

/// What one line of packets says, which is without its end (docs/ADOPT.md, "Lines"). An instruction has its unit written.
///
/// `text` is for the line of serial text that stands for this one: it takes memory only where that is longer than those
/// before it.
///
/// # Errors
///
/// The first fault of the line that needs no other line. Bars in front are none, wherever the line stands. `Memory` may come
/// in place of any answer.
#[tactic(auto, unfolding(crate::specs::Line::line_says))]
pub fn read_line(isa: InstructionSet, text: &mut Vec<u8>, line: &[u8]) -> Result<Written, LineFault>
    ensures { MatchResult result (λ written. line_says isa line.now ≡ Ok (line_written written))
        (λ fault. Fails fault (line_says isa line.now)) }
{
    if !scan_line(line).allowed {
        return Err(LineFault::Read(Cause::NotAscii));
    }
    if line.len() > MOST_LINE {
        return Err(LineFault::Read(Cause::LineTooLong));
    }
    if begins_with(b'*', line) {
        return Ok(Written {
            beside: false,
            label: None,
            what: What::Empty,
        });
    }
    read_fronted(isa, text, line)
}
