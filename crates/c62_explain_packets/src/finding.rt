//! What is wrong with which line of packets.

ghost use Rattle.std.specs.Prelude.{◌≡◌, ◌<◌, ◌≤◌, ◌++◌, ◌^◌, IfOk, IfSome, OnOk, MatchOption, Some, length, option_map};
ghost use Rattle.std.specs.Option.{option_copied};
ghost use Rattle.c62_adopt_cut.specs.FaultText.{cause_name as text_cause_name};
ghost use Rattle.c62_adopt_line.specs.FaultName.{line_fault_name};
ghost use Rattle.c62_adopt.specs.FaultText.{adopt_fault_text};
ghost use Rattle.c62_rows.specs.FaultText.{cause_name as rows_cause_name, fault_text as rows_fault_text};
ghost use Rattle.c62_explain_packets.specs.Sentence.{rule_sentence, code_sentence, read_sentence, what_sentence};
ghost use Rattle.c62_explain_packets.specs.Listed.{IsFoundInBlock, IsFoundListed};
ghost use Rattle.c62_explain_packets.specs.Place.{serial_cause, blanked_front, behind_front, without_front, searched_line, IsFoundAt};
ghost use Rattle.c62_explain_packets.specs.Finding.{IsShort, IsShortLine, IsShortRow, IsShortRows, IsShortText, IsToldAs, found_at, what_name};

use c62_adopt::{AdoptFault, adopt};
use c62_adopt_code::CodeCause;
use c62_adopt_cut::TextCause;
use c62_adopt_line::{LineFault, behind_bars};
use c62_adopt_spell::behind_local;
use c62_explain::{push_blanks, sentence_of};
use c62_insn::FormFault;
use c62_line::Cause;
use c62_listing_reader::ListFault;
use c62_op::InstructionSet;
use c62_packet::PacketRule;
use c62_place::{Place, place_of};
use c62_rows::{RowsCause, RowsFault};
use c62_rules::CycleRule;
use std::alloc::{AllocError, Global};

/// What is wrong with a line of packets.
#[derive(Clone, Copy, PartialEq, Eq, Debug)]
pub enum What {
    /// What a line of serial text may have, too.
    Read(Cause),
    UnitWanted,
    TooManyCycles,
    /// A branch stands in the delay slots of this one.
    TwoBranches,
    /// A branch stands in the packet of this one.
    BranchBeside,
    TooManyTargets,
    NotDrained,
    /// The instruction breaks this rule with others.
    Rule(PacketRule),
    /// The line keeps the text from having code.
    Code(CodeCause),
    /// The line isn't spelled as one of a listing.
    Shape,
}

/// A line of packets, counted from 1, and what is wrong with it.
#[derive(Clone, Copy, PartialEq, Eq, Debug)]
pub struct Finding {
    pub line: u32,
    pub what: What,
}

fn rule_sentence(rule: PacketRule) -> &'static [u8]
    ensures { result.now ≡ rule_sentence rule }
{
    match rule {
        PacketRule::InCycle(CycleRule::P1) => b"another instruction of the cycle is on this unit",
        PacketRule::InCycle(CycleRule::P2) =>
            b"another instruction of the cycle uses this cross path",
        PacketRule::InCycle(CycleRule::P3) => b"another access of the cycle uses this data path",
        PacketRule::InCycle(CycleRule::P4) => b"the cycle reads a register more than four times",
        PacketRule::P5 => b"another write of the register lands in the same cycle",
    }
}

fn code_sentence(cause: CodeCause) -> &'static [u8]
    ensures { result.now ≡ code_sentence cause }
{
    match cause {
        CodeCause::Directive => b"this directive may lay something down",
        CodeCause::OtherSection => b"this stands in another section than the code",
        CodeCause::Padding => b"this alignment may be padded with cycles that code runs through",
    }
}

/// What is said of a fault that serial texts have, too.
fn read_sentence(cause: Cause) -> &'static [u8]
    ensures { result.now ≡ read_sentence cause }
{
    match cause {
        Cause::ParallelBar => b"no packet is above these bars",
        Cause::Directive => b"this directive isn't known",
        Cause::TextTooLong => b"the text is too long",
        _ => sentence_of(cause),
    }
}

impl What {
    /// What is wrong where a line has this fault; none where memory ran out.
    fn of_line(fault: LineFault) -> Option<What>
        ensures { MatchOption result (IsShortLine fault) (λ what. what_name what ≡ line_fault_name fault) }
    {
        match fault {
            LineFault::Read(cause) => Some(What::Read(cause)),
            LineFault::UnitWanted => Some(What::UnitWanted),
            LineFault::Memory => None,
        }
    }

    /// What is wrong where a text has this fault in a line; none where memory ran out.
    fn of_text(cause: TextCause) -> Option<What>
        ensures { MatchOption result (IsShortText cause) (λ what. what_name what ≡ text_cause_name cause) }
    {
        match cause {
            TextCause::Line(fault) => What::of_line(fault),
            TextCause::TooManyCycles => Some(What::TooManyCycles),
            TextCause::TwoBranches => Some(What::TwoBranches),
            TextCause::NotDrained => Some(What::NotDrained),
        }
    }

    /// What is wrong where rows have this fault in a line; none where memory ran out.
    fn of_rows(cause: RowsCause) -> Option<What>
        ensures { MatchOption result (IsShortRow cause) (λ what. what_name what ≡ rows_cause_name cause) }
    {
        match cause {
            RowsCause::Line(fault) => What::of_line(fault),
            RowsCause::TooManyTargets => Some(What::TooManyTargets),
            RowsCause::Rule(rule) => Some(What::Rule(PacketRule::InCycle(rule))),
            RowsCause::TwoBranches => Some(What::BranchBeside),
        }
    }

    /// Its name, as it is told.
    pub fn name(self) -> &'static str
        ensures { result.now ≡ what_name self }
    {
        match self {
            What::Read(cause) => cause.name(),
            What::UnitWanted => "UnitWanted",
            What::TooManyCycles => "TooManyCycles",
            What::TwoBranches | What::BranchBeside => "TwoBranches",
            What::TooManyTargets => "TooManyTargets",
            What::NotDrained => "NotDrained",
            What::Rule(rule) => rule.name(),
            What::Code(cause) => cause.name(),
            What::Shape => "Shape",
        }
    }

    /// What is wrong, in one sentence.
    pub fn sentence(self) -> &'static [u8]
        ensures { result.now ≡ what_sentence self }
    {
        match self {
            What::Read(cause) => read_sentence(cause),
            What::UnitWanted => b"in a packet each instruction names its unit",
            What::TooManyCycles => b"the block has more cycles than it may have",
            What::TwoBranches => b"another branch is in the delay slots of this one",
            What::BranchBeside => b"another branch stands in this packet",
            What::TooManyTargets => b"a text has at most 256 labels that are named",
            What::NotDrained => b"this is still in flight where its block is over",
            What::Rule(rule) => rule_sentence(rule),
            What::Code(cause) => code_sentence(cause),
            What::Shape => b"a listing spells this line in another way, or has none such here",
        }
    }

    /// As the cause of a line of serial text: what is found at the same token there.
    fn cause(self) -> Cause
        ensures { result ≡ serial_cause self }
    {
        match self {
            What::Read(cause) => cause,
            What::UnitWanted | What::Rule(_) => Cause::Form(FormFault::NoUnit),
            What::TooManyCycles | What::TwoBranches | What::BranchBeside =>
                Cause::TooManyInstructions,
            What::TooManyTargets => Cause::UnknownTarget,
            What::NotDrained | What::Code(_) | What::Shape => Cause::TooManyInstructions,
        }
    }
}

impl Finding {
    /// This in that line, where there is something.
    fn at(line: u32, what: Option<What>) -> Option<Finding>
        ensures { result ≡ option_map (found_at line) what }
    {
        Some(Finding { line, what: what? })
    }
}

/// What is wrong with a text of packets that isn't adopted, which is what is told of it; none where memory ran out.
pub fn of_adopt(fault: AdoptFault) -> Option<Finding>
    ensures { MatchOption result (IsShort fault) (IsToldAs (adopt_fault_text fault)) }
{
    match fault {
        AdoptFault::Text(fault) => Finding::at(fault.line, What::of_text(fault.cause)),
        AdoptFault::Rule(line, rule) => Finding::at(line, Some(What::Rule(rule))),
        AdoptFault::Code(line, cause) => Finding::at(line, Some(What::Code(cause))),
        AdoptFault::Memory => None,
    }
}

/// What is wrong with a text of packets that makes no rows, which is what is told of it; none where that is no line's.
pub fn of_rows(fault: RowsFault) -> Option<Finding>
    ensures { MatchOption result (IsShortRows fault) (IsToldAs (rows_fault_text fault)) }
{
    match fault {
        RowsFault::At(line, cause) => Finding::at(line, What::of_rows(cause)),
        RowsFault::From | RowsFault::Memory => None,
    }
}

/// What keeps a text from being adopted as it stands.
fn of_block(isa: InstructionSet, alloc: Global, text: &[u8]) -> Result<Option<Finding>, AllocError>
    ensures { IfOk result (IsFoundInBlock isa text.now) }
{
    match adopt(isa, alloc, text, false) {
        Ok(_) => Ok(None),
        Err(fault) => match of_adopt(fault) {
            Some(finding) => Ok(Some(finding)),
            None => Err(AllocError),
        },
    }
}

/// What is wrong with a text that is no listing. Of a block it is what would keep the block from being adopted.
///
/// # Errors
///
/// `AllocError` where memory ran out.
pub fn of_listing(
    isa: InstructionSet,
    alloc: Global,
    text: &[u8],
    fault: ListFault,
) -> Result<Option<Finding>, AllocError>
    ensures { IfOk result (IsFoundListed isa text.now fault) }
{
    match fault {
        ListFault::Read(fault) => Ok(Finding::at(fault.line, Some(What::Read(fault.cause)))),
        ListFault::Shape(line) => Ok(Finding::at(line, Some(What::Shape))),
        ListFault::Memory => Err(AllocError),
        ListFault::Unlawful(_, _, _) | ListFault::NotDrained(_) | ListFault::TwoBranches(_) => {
            of_block(isa, alloc, text)
        }
    }
}

/// What stands behind the bars of a line, or behind its local label.
fn behind_front(line: &[u8]) -> Option<&[u8]>
    ensures front { option_copied result ≡ behind_front line.now }
    ensures shorter { IfSome result (λ rest. length rest.now ≤ length line.now) }
{
    if let Some(rest) = behind_bars(line) {
        return Some(rest);
    }
    behind_local(line)
}

/// Adds a line whose part behind its front is this, with blanks in the place of what stands in front of that.
fn push_blanked(out: &mut Vec<u8>, line: &[u8], rest: &[u8]) -> Result<(), AllocError>
    requires { length rest.now ≤ length line.now }
    ensures { OnOk result (out.new.items ≡ out.old.items ++ blanked_front line.now (Some rest.now)) }
{
    push_blanks(out, &line[..line.len() - rest.len()])?;
    out.extend_from_slice(rest)
}

/// The line with blanks in the place of its bars or of its local label, as serial text has it.
pub(crate) fn without_front(alloc: Global, line: &[u8]) -> Result<Vec<u8>, AllocError>
    ensures { IfOk result (λ serial. serial.items ≡ without_front line.now) }
{
    let mut serial = Vec::new(alloc);
    match behind_front(line) {
        Some(rest) => push_blanked(&mut serial, line, rest)?,
        None => serial.extend_from_slice(line)?,
    }
    Ok(serial)
}

/// What is searched for the token at which the fault is found.
fn searched_line(alloc: Global, what: What, line: &[u8]) -> Result<Vec<u8>, AllocError>
    ensures { IfOk result (λ searched. searched.items ≡ searched_line what line.now) }
{
    match what {
        What::Read(Cause::ParallelBar) => Vec::from_slice(alloc, line),
        _ => without_front(alloc, line),
    }
}

/// Where in its line the fault is found.
pub(crate) fn place_in(
    isa: InstructionSet,
    alloc: Global,
    what: What,
    line: &[u8],
) -> Result<Place, AllocError>
    ensures place { IfOk result (IsFoundAt isa what line.now) }
    ensures bound { IfOk result (λ place. place.start < 2 ^ 63) }
{
    let searched = searched_line(alloc, what, line)?;
    place_of(isa, alloc, what.cause(), &searched)
}
