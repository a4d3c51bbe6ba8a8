//! What the pages say of a fault, a rule, or a word of `check` or `show`.

ghost use Rattle.std.specs.Prelude.{◌≡◌, ◌++◌, IfOk, OnOk, find, map, option_map};
ghost use Rattle.c62_line.specs.Fault.{cause_name};
ghost use Rattle.c62_token.specs.Number.{spells};
ghost use Rattle.c62_explain.specs.Topic.{cause_page, example, example_line, known_cause, known_topic, page_in, page_of, topic_example, topic_name, topic_page, topic_sentence, topic_text};

use crate::sentence::sentence;
use c62_insn::FormFault;
use c62_line::Cause;
use c62_token::number::spells;
use std::alloc::{AllocError, Global};

/// The faults of a serial text, in the order in which a line is judged.
const CAUSES: [Cause; 19] = [
    Cause::NotAscii,
    Cause::LineTooLong,
    Cause::ParallelBar,
    Cause::BadLabel,
    Cause::DuplicateLabel,
    Cause::Directive,
    Cause::UnknownMnemonic,
    Cause::BadUnit,
    Cause::BadOperand,
    Cause::Form(FormFault::BadCondition),
    Cause::Form(FormFault::ConstantRange),
    Cause::Form(FormFault::TwoCrossed),
    Cause::Form(FormFault::BadSide),
    Cause::Form(FormFault::NoUnit),
    Cause::UnknownTarget,
    Cause::TooManyInstructions,
    Cause::TooManyBlocks,
    Cause::TextTooLong,
    Cause::Memory,
];

/// A line that has this fault; nothing where one line alone hasn't.
fn example(cause: Cause) -> &'static [u8]
    ensures { result.now ≡ example cause }
{
    match cause {
        Cause::ParallelBar => b"|| ADD A1,A2,A3",
        Cause::BadLabel => b"A1: MVK 1,A2",
        Cause::Directive => b".text",
        Cause::UnknownMnemonic => b"MVC CSR,B0",
        Cause::BadUnit => b"MVK .M1 1,A1",
        Cause::BadOperand => b"MVK 1,A16",
        Cause::Form(FormFault::BadCondition) => b"[A3] MVK 1,A1",
        Cause::Form(FormFault::ConstantRange) => b"MVK 32768,A1",
        Cause::Form(FormFault::TwoCrossed) => b"ADD B1,B2,A0",
        Cause::Form(FormFault::BadSide) => b"ADD .L2 A1,A2,A3",
        Cause::Form(FormFault::NoUnit) => b"ADD 20,B2,A3",
        Cause::UnknownTarget => b"B NOWHERE",
        _ => b"",
    }
}

/// A fault or a rule that serial texts don't have, or a word of `check` or `show`.
#[derive(Clone, Copy, PartialEq, Eq, Debug)]
pub enum Topic {
    UnitWanted,
    Shape,
    TwoBranches,
    NotDrained,
    TooManyCycles,
    P1,
    P2,
    P3,
    P4,
    P5,
    OtherSection,
    Padding,
    TooManyTargets,
    NoListing,
    Same,
    Missing,
    Extra,
    Early,
    Uneven,
    Outside,
    Counter,
    Branch,
    But,
    Undrained,
    Branches,
    Clash,
    Unchecked,
    Bound,
    Path,
    Units,
    Use,
    Lands,
    Idle,
    Slack,
    After,
    Taken,
    Nothing,
    Live,
    Unused,
}

const TOPICS: [Topic; 39] = [
    Topic::UnitWanted,
    Topic::Shape,
    Topic::TwoBranches,
    Topic::NotDrained,
    Topic::TooManyCycles,
    Topic::P1,
    Topic::P2,
    Topic::P3,
    Topic::P4,
    Topic::P5,
    Topic::OtherSection,
    Topic::Padding,
    Topic::TooManyTargets,
    Topic::NoListing,
    Topic::Same,
    Topic::Missing,
    Topic::Extra,
    Topic::Early,
    Topic::Uneven,
    Topic::Outside,
    Topic::Counter,
    Topic::Branch,
    Topic::But,
    Topic::Undrained,
    Topic::Branches,
    Topic::Clash,
    Topic::Unchecked,
    Topic::Bound,
    Topic::Path,
    Topic::Units,
    Topic::Use,
    Topic::Lands,
    Topic::Idle,
    Topic::Slack,
    Topic::After,
    Topic::Taken,
    Topic::Nothing,
    Topic::Live,
    Topic::Unused,
];

impl Topic {
    fn name(self) -> &'static [u8]
        ensures { result.now ≡ topic_name self }
    {
        match self {
            Topic::UnitWanted => b"UnitWanted",
            Topic::Shape => b"Shape",
            Topic::TwoBranches => b"TwoBranches",
            Topic::NotDrained => b"NotDrained",
            Topic::TooManyCycles => b"TooManyCycles",
            Topic::P1 => b"P1",
            Topic::P2 => b"P2",
            Topic::P3 => b"P3",
            Topic::P4 => b"P4",
            Topic::P5 => b"P5",
            Topic::OtherSection => b"OtherSection",
            Topic::Padding => b"Padding",
            Topic::TooManyTargets => b"TooManyTargets",
            Topic::NoListing => b"NoListing",
            Topic::Same => b"same",
            Topic::Missing => b"missing",
            Topic::Extra => b"extra",
            Topic::Early => b"early",
            Topic::Uneven => b"uneven",
            Topic::Outside => b"outside",
            Topic::Counter => b"counter",
            Topic::Branch => b"branch",
            Topic::But => b"but",
            Topic::Undrained => b"undrained",
            Topic::Branches => b"branches",
            Topic::Clash => b"clash",
            Topic::Unchecked => b"unchecked",
            Topic::Bound => b"bound",
            Topic::Path => b"path",
            Topic::Units => b"units",
            Topic::Use => b"use",
            Topic::Lands => b"lands",
            Topic::Idle => b"idle",
            Topic::Slack => b"slack",
            Topic::After => b"after",
            Topic::Taken => b"taken",
            Topic::Nothing => b"nothing",
            Topic::Live => b"live",
            Topic::Unused => b"unused",
        }
    }

    /// What it is, in a sentence.
    fn says(self) -> &'static [u8]
        ensures { result.now ≡ topic_sentence self }
    {
        match self {
            Topic::UnitWanted => b"in a packet each instruction names its unit",
            Topic::Shape => b"this isn't a line as a listing has it",
            Topic::TwoBranches => b"a branch is in the delay slots of another",
            Topic::NotDrained => b"something is still in flight where its block is over",
            Topic::TooManyCycles => b"a block has more cycles than it may have",
            Topic::P1 => b"two instructions of one cycle are on one unit",
            Topic::P2 => b"two instructions of one cycle use one cross path",
            Topic::P3 => b"two accesses of one cycle use one data path",
            Topic::P4 => b"the instructions of one cycle read a register more than four times",
            Topic::P5 => b"two writes of one register land in one cycle",
            Topic::OtherSection => b"this stands in another section than the code",
            Topic::Padding => b"this alignment may be padded with cycles that code runs through",
            Topic::TooManyTargets => b"a text has at most 256 labels that are named",
            Topic::NoListing => b"what is to be checked has no line `---`, and so no listing",
            Topic::Same => b"the packets are a schedule of the block, or do what the loop does",
            Topic::Missing => b"the packets lack an instruction of this line of the text",
            Topic::Extra =>
                b"the block or the loop lacks an instruction of this line of the packets",
            Topic::Early => b"an instruction comes fewer cycles behind another than it must",
            Topic::Uneven =>
                b"prolog and epilog hold this instruction in another number of iterations than the loop's first",
            Topic::Outside =>
                b"all instructions of the loop are there, but its steps, branches or rows aren't as is asked",
            Topic::Counter =>
                b"the block that this branch of the text ends doesn't count down by one",
            Topic::Branch =>
                b"this branch of the packets takes effect at the end of no pass of the kernel",
            Topic::But =>
                b"the loads past the last iteration change these registers, and those of these lines may fault",
            Topic::Undrained =>
                b"something that the rows of the block issue lands when they are over, or later",
            Topic::Branches => b"the rows of the block hold more than one branch",
            Topic::Clash => b"two writes of a register land in one cycle of the rows of the block",
            Topic::Unchecked =>
                b"which rows are those of the block isn't known, or some rows belong to no block",
            Topic::Bound => b"each schedule of the block has at least so many cycles",
            Topic::Path =>
                b"the critical path: each of its lines must come so many cycles behind the one before",
            Topic::Units =>
                b"so many instructions wait for these units that the block has at least so many cycles",
            Topic::Use => b"in how many of 100 cycles the unit or the path is used",
            Topic::Lands => b"which writes land in the cycle, so that the next one can read them",
            Topic::Idle => b"nothing is issued in these cycles",
            Topic::Slack =>
                b"by how many cycles the instruction could be issued later, as far as dependences go",
            Topic::After =>
                b"a cycle earlier the instruction would come too early behind this line",
            Topic::Taken =>
                b"this line has the unit or the path that the instruction wants in the cycle before",
            Topic::Nothing => b"the instruction finds all that it needs in the cycle before",
            Topic::Live => b"how many registers of a side at most hold a value that is still read",
            Topic::Unused => b"no instruction of the block reads or writes these registers",
        }
    }

    /// Lines that have it; nothing where there are no short ones.
    fn example(self) -> &'static [u8]
        ensures { result.now ≡ topic_example self }
    {
        match self {
            Topic::UnitWanted => b"ADD A1,A2,A3",
            Topic::Shape => b"add .l1 a1,a2,a3",
            Topic::TwoBranches => b"two lines B .S1 L, one behind the other",
            Topic::NotDrained => b"LDW .D1T1 *A4,A5 as the last line",
            Topic::P1 => b"ADD .L1 A1,A2,A3 and SUB .L1 A4,A5,A6",
            Topic::P2 => b"ADD .L1X A1,B1,A2 and SUB .S1X A3,B3,A4",
            Topic::P3 => b"LDW .D1T1 *A4,A5 and LDW .D2T1 *B4,A6",
            Topic::P4 => b"ADD .L1 A1,A1,A5, MPY .M1 A1,A1,A4 and SUB .S1 A1,A2,A3",
            Topic::P5 => b"MPY .M1 A1,A2,A3, and a cycle later ADD .L1 A4,A5,A3",
            Topic::OtherSection => b"ADD .L1 A1,A2,A3 below .data",
            Topic::Padding => b".align 6 below MVK .S1 1,A1",
            Topic::Same => b"block 0 same",
            Topic::Missing => b"block 0 missing 3",
            Topic::Extra => b"block 0 extra 7",
            Topic::Early => b"block 0 early 7 after 4 needs 5 has 4 reads A5",
            Topic::Uneven => b"loop L uneven 3",
            Topic::Outside => b"loop L outside",
            Topic::Counter => b"loop L counter 9",
            Topic::Branch => b"loop L branch 12",
            Topic::But => b"loop L same from 1 trips cycles 1 but A2 fault 3",
            Topic::Undrained => b"block 0 undrained",
            Topic::Branches => b"block 0 branches",
            Topic::Clash => b"block 0 clash",
            Topic::Unchecked => b"rows unchecked",
            Topic::Bound => b"15 over the bound of 80",
            Topic::Path => b"path 3: lines 23 -A6:1- 24 -A5:1- 25",
            Topic::Units => b"units 4: 2 on .S1, and 2 behind the last",
            Topic::Idle => b"1-4 idle, landing: A5 in 4",
            Topic::After => b"after 23 needs 1 reads A6",
            Topic::Taken => b".S1 taken by 24",
            Topic::Live => b"live A: 3 at most, in cycle 2",
            Topic::Unused => b"unused A0 A1",
            _ => b"",
        }
    }

    /// The page that has it.
    fn page(self) -> &'static [u8]
        ensures { result.now ≡ topic_page self }
    {
        match self {
            Topic::UnitWanted | Topic::TooManyCycles | Topic::OtherSection | Topic::Padding =>
                b"docs/ADOPT.md",
            Topic::Shape | Topic::TwoBranches | Topic::NotDrained => b"docs/LISTING.md",
            Topic::P1 | Topic::P2 | Topic::P3 | Topic::P4 | Topic::P5 => b"docs/MACHINE.md",
            Topic::TooManyTargets => b"docs/EXEC.md",
            Topic::NoListing
            | Topic::Same
            | Topic::Missing
            | Topic::Extra
            | Topic::Early
            | Topic::Uneven
            | Topic::Outside
            | Topic::Counter
            | Topic::Branch
            | Topic::But
            | Topic::Undrained
            | Topic::Branches
            | Topic::Clash
            | Topic::Unchecked => b"docs/CHECK.md",
            Topic::Bound
            | Topic::Path
            | Topic::Units
            | Topic::Use
            | Topic::Lands
            | Topic::Idle
            | Topic::Slack
            | Topic::After
            | Topic::Taken
            | Topic::Nothing
            | Topic::Live
            | Topic::Unused => b"docs/SHOW.md",
        }
    }
}

/// The first of these faults that has this name.
fn cause_named(causes: &[Cause], word: &[u8]) -> Option<Cause>
    ensures { result ≡ find (λ cause. spells (cause_name cause) word.now) causes.now }
{
    causes
        .iter()
        .copied()
        .find(|cause| spells(cause.name().as_bytes(), word))
}

/// The first of these topics that has this name.
fn topic_named(topics: &[Topic], word: &[u8]) -> Option<Topic>
    ensures { result ≡ find (λ topic. spells (topic_name topic) word.now) topics.now }
{
    topics
        .iter()
        .copied()
        .find(|topic| spells(topic.name(), word))
}

/// The fault of a serial text that has this name.
#[tactic(auto, unfolding(crate::specs::Topic::known_cause))]
fn known_cause(word: &[u8]) -> Option<Cause>
    ensures { result ≡ known_cause word.now }
{
    cause_named(&CAUSES, word)
}

/// The other fault, the rule or the word that has this name.
#[tactic(auto, unfolding(crate::specs::Topic::known_topic))]
fn known_topic(word: &[u8]) -> Option<Topic>
    ensures { result ≡ known_topic word.now }
{
    topic_named(&TOPICS, word)
}

/// Adds a line with an example, where there is one.
fn push_example(out: &mut Vec<u8>, example: &[u8]) -> Result<(), AllocError>
    ensures { OnOk result (out.new.items ≡ out.old.items ++ example_line example.now) }
{
    match example {
        [] => Ok(()),
        [_, ..] => {
            out.extend_from_slice(b"example: ")?;
            out.extend_from_slice(example)?;
            out.extend_from_slice(b"\n")
        }
    }
}

/// A name, what it says, an example and a page, each in a line of its own.
fn page_of(
    alloc: Global,
    name: &[u8],
    says: &[u8],
    example: &[u8],
    page: &[u8],
) -> Result<Vec<u8>, AllocError>
    ensures { IfOk result (λ out. out.items ≡ page_of name.now says.now example.now page.now) }
{
    let mut out = Vec::new(alloc);
    out.extend_from_slice(name)?;
    out.extend_from_slice(b": ")?;
    out.extend_from_slice(says)?;
    out.extend_from_slice(b"\n")?;
    push_example(&mut out, example)?;
    out.extend_from_slice(b"see ")?;
    out.extend_from_slice(page)?;
    out.extend_from_slice(b"\n")?;
    Ok(out)
}

/// What is said of a fault of a serial text.
fn cause_page(alloc: Global, cause: Cause) -> Result<Vec<u8>, AllocError>
    ensures { IfOk result (λ out. out.items ≡ cause_page cause) }
{
    page_of(
        alloc,
        cause.name().as_bytes(),
        sentence(cause),
        example(cause),
        b"docs/SERIAL_TEXT.md, \"Faults of a line\"",
    )
}

/// What is said of another fault, of a rule or of a word.
fn topic_text(alloc: Global, topic: Topic) -> Result<Vec<u8>, AllocError>
    ensures { IfOk result (λ out. out.items ≡ topic_text topic) }
{
    page_of(
        alloc,
        topic.name(),
        topic.says(),
        topic.example(),
        topic.page(),
    )
}

/// What is said of a fault, a rule, or a word of `check` or `show`: its name and a sentence, an example where a line or two show it, and the
/// page that has it (docs/FAULTS.md, "Names"). None for another word. The name may be written in either case.
///
/// # Errors
///
/// `AllocError` where memory ran out.
pub fn page(alloc: Global, word: &[u8]) -> Result<Option<Vec<u8>>, AllocError>
    ensures { IfOk result (λ found. option_map (λ page. page.items) found ≡ page_in word.now) }
{
    if let Some(cause) = known_cause(word) {
        return Ok(Some(cause_page(alloc, cause)?));
    }
    match known_topic(word) {
        Some(topic) => Ok(Some(topic_text(alloc, topic)?)),
        None => Ok(None),
    }
}
