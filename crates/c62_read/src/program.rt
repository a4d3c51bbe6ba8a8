//! What a text says.

ghost use Rattle.std.specs.Prelude.{◌≡◌, ◌==◌, ℕ, Ok, Err, ◌≤◌, ◌<◌, ◌+◌, ◌∷◌, ◌++◌, [], length, map, false, position, Some, None, MatchOption, MatchResult, IfSome, IfOk, IfErr, OnOk, IsTrue};
ghost use Rattle.std.specs.List.{list_any, list_all};
ghost use Rattle.std.specs.Option.{option_copied, option_to_list};
ghost use Rattle.c62_insn.specs.Insn.{op_of};
ghost use Rattle.c62_token.specs.Number.{is_label};
ghost use Rattle.c62_read.specs.Text.{lines_of, without_return};

use crate::block::{Block, Program, SerialInsn};
use crate::jump::Jump;
use crate::limits::{MOST_BLOCKS, MOST_BYTES, MOST_INSTRUCTIONS};
use crate::missed::{first_branch, leave_out_label};
use c62_insn::{Insn, Op};
use c62_line::{
    Cause, Label, ReadFault, Statement, copied_label, label_field, owned_label, read_head,
    read_rest,
};
use c62_op::InstructionSet;
use memchr::memchr;
use std::alloc::{AllocError, Global};

/// A block as it is read, and the label that its last instruction branches to.
#[derive(Drop)]
pub struct BlockReader {
    pub label: Option<Label>,
    pub insns: Vec<SerialInsn>,
    pub target: Option<Label>,
}

/// The blocks that are whole, and the one that the next instruction goes into.
#[derive(Drop)]
pub struct TextReader {
    pub done: Vec<BlockReader>,
    pub current: Option<BlockReader>,
}

ghost use Rattle.c62_op.specs.Shape.{is_branch};
ghost use Rattle.c62_line.specs.Line.{statement_of, names_label, parts_of, label_field};
ghost use Rattle.c62_read.specs.Program.{label_is, is_among, labels_of, Fails, target_number, aimed, numbered_of, block_parts, block_in, program_in};
ghost use Rattle.c62_read.specs.Walk.{draft_of, drafts_of, new_draft, all_drafts, own_labels, with_label, opened, with_insn, closed, with_says, is_taken, is_full, is_instruction, begins_block, hindrance, refused, unless_hindered, add_says, add_line, add_lines, no_drafts, is_whole, number_among, asked_in, asked_of, missed, first_line, unless_missed, failed};
ghost use Rattle.c62_read.specs.Reading.{line_step, said_step, LeadsTo, KeepsJump, KeepsJumpOf, SaysAtLine, LeavesOut, still_missed, text_read, IsFirstLine, with_read, with_next, all_closed, one_open, aimed_block, aimed_blocks};

impl BlockReader {
    fn new(alloc: Global, label: Option<Label>) -> BlockReader
        ensures { draft_of result ≡ new_draft label }
    {
        BlockReader {
            label,
            insns: Vec::new(alloc),
            target: None,
        }
    }

    #[tactic(auto, using(std::proofs::lemmas::Grind::common_steps))]
    fn add(&mut self, insn: Insn, line: u32, target: Option<&[u8]>) -> Result<(), AllocError>
        requires { IfSome target (λ word. IsTrue (is_label word.now)) }
        ensures { OnOk result (draft_of self.new ≡ with_read insn line target.entry (draft_of self.old)) }
    {
        self.insns.push(SerialInsn { insn, line })?;
        self.target = owned_label(target);
        Ok(())
    }
}

/// Aims the branches to labels among these at the block of this number.
fn aim_all(entries: &mut [SerialInsn], number: u8)
    ensures { map numbered_of entries.new ≡ map (aimed number) (map numbered_of entries.old) }
{
    for entry in entries.iter_mut() {
        entry.aim(number);
    }
}

impl BlockReader {
    /// The block, with its branch aimed at the block of this number.
    fn into_block(self, number: u8) -> Block
        requires { IsTrue (is_whole (draft_of self)) }
        ensures { block_parts result ≡ aimed_block number self }
    {
        let mut insns = self.insns;
        aim_all(&mut insns, number);
        Block::new(self.label, insns)
    }
}

impl TextReader {
    /// No blocks yet.
    pub fn new(alloc: Global) -> TextReader
        ensures { drafts_of result ≡ record { done = []; current = None } }
    {
        TextReader {
            done: Vec::new(alloc),
            current: None,
        }
    }

    /// Ends the block that is open.
    fn end_block(&mut self) -> Result<(), AllocError>
        ensures { OnOk result (drafts_of self.new ≡ all_closed (drafts_of self.old)) }
    {
        if let Some(block) = self.current.take() {
            self.done.push(block)?;
        }
        Ok(())
    }

    fn add_label(&mut self, alloc: Global, label: Option<Label>) -> Result<(), AllocError>
        ensures { OnOk result (drafts_of self.new ≡ with_label label (drafts_of self.old)) }
    {
        if label.is_some() {
            self.end_block()?;
            self.current = Some(BlockReader::new(alloc, label));
        }
        Ok(())
    }

    /// The next instruction goes into the open block. Where none is open, one begins.
    fn open_block(&mut self, alloc: Global)
        ensures { drafts_of self.new ≡ one_open (drafts_of self.old) }
    {
        if self.current.is_none() {
            self.current = Some(BlockReader::new(alloc, None));
        }
    }

    #[inline(always)]
    fn add_insn(
        &mut self,
        alloc: Global,
        insn: Insn,
        line: u32,
        target: Option<&[u8]>,
    ) -> Result<(), AllocError>
        requires { IfSome target (λ word. IsTrue (is_label word.now)) }
        ensures { OnOk result (drafts_of self.new ≡ with_next insn line target.entry (drafts_of self.old)) }
    {
        self.open_block(alloc);
        if let Some(block) = &mut self.current {
            block.add(insn, line, target)?;
        }
        if matches!(insn.op(), Op::B) {
            self.end_block()?;
        }
        Ok(())
    }

    #[inline(always)]
    #[tactic(auto, unfolding(crate::specs::Walk::with_says))]
    fn add_what(&mut self, alloc: Global, line: u32, what: Statement<'_>) -> Result<(), AllocError>
        requires { IsTrue (names_label what) }
        ensures { OnOk result (drafts_of self.new ≡ with_says line (statement_of what.entry) (drafts_of self.old)) }
    {
        match what {
            Statement::Empty | Statement::Nop(_) => Ok(()),
            Statement::Insn(insn) => self.add_insn(alloc, insn, line, None),
            Statement::Jump(insn, label) => self.add_insn(alloc, insn, line, Some(label)),
        }
    }

    fn is_done(&self, label: &[u8]) -> bool
        ensures { result ≡ list_any (λ draft. label_is label.now draft.label) (drafts_of self.now).done }
    {
        any_labelled(&self.done, label)
    }

    fn is_current(&self, label: &[u8]) -> bool
        ensures { result ≡ list_any (λ draft. label_is label.now draft.label) (option_to_list (drafts_of self.now).current) }
    {
        match &self.current {
            Some(block) => label_is(label, &block.label),
            None => false,
        }
    }

    /// Whether an earlier line has the label.
    #[tactic(auto, unfolding(crate::specs::Walk::is_taken))]
    fn is_taken(&self, label: Option<&[u8]>) -> bool
        ensures { result ≡ is_taken (option_copied label.entry) (drafts_of self.now) }
    {
        match label {
            Some(label) => self.is_done(label) || self.is_current(label),
            None => false,
        }
    }

    fn is_full(&self) -> bool
        ensures { result ≡ is_full (drafts_of self.now).current }
    {
        match &self.current {
            Some(block) => block.insns.len() >= MOST_INSTRUCTIONS,
            None => false,
        }
    }

    /// How many blocks were begun.
    fn blocks(&self) -> usize
        ensures { result ≡ length (all_drafts (drafts_of self.now)) }
    {
        self.done.len() + usize::from(self.current.is_some())
    }

    /// What stands against a line that says something by itself.
    #[tactic(auto, unfolding(crate::specs::Walk::hindrance))]
    fn hindrance(&self, label: Option<&[u8]>, what: &Statement<'_>) -> Option<Cause>
        ensures { result ≡ hindrance (option_copied label.entry) (statement_of what.now) (drafts_of self.now) }
    {
        let is_instruction = is_instruction(what);
        if is_instruction && label.is_none() && self.is_full() {
            Some(Cause::TooManyInstructions)
        } else if (label.is_some() || is_instruction && self.current.is_none())
            && self.blocks() >= MOST_BLOCKS
        {
            Some(Cause::TooManyBlocks)
        } else {
            None
        }
    }
}

fn is_instruction(what: &Statement<'_>) -> bool
    ensures { result ≡ is_instruction (statement_of what.now) }
{
    matches!(what, Statement::Insn(_) | Statement::Jump(_, _))
}

/// Keeps the branch of a line, where it is one to a label.
fn keep_jump(jumps: &mut Vec<Jump>, line: u32, what: &Statement<'_>) -> Result<(), AllocError>
    requires { IsTrue (names_label what.now) }
    ensures { OnOk result (KeepsJump line (statement_of what.now) jumps.old.items jumps.new.items) }
{
    if let Statement::Jump(_, label) = what {
        jumps.push(Jump::new(line, label))?;
    }
    Ok(())
}

impl TextReader {
    /// What a line of the text says by itself, where no earlier line has its label.
    #[inline(always)]
    #[tactic(auto, unfolding(crate::specs::Walk::add_line))]
    pub fn judge<'a>(
        &self,
        isa: InstructionSet,
        line: &'a [u8],
    ) -> Result<(Option<&'a [u8]>, Statement<'a>), Cause>
        ensures said { (number : ℕ) → SaysAtLine isa number line.now self.now result }
        ensures label { IfOk result (λ found. IfSome found.0 (λ word. IsTrue (is_label word.now))) }
        ensures target { IfOk result (λ found. IsTrue (names_label found.1)) }
    {
        let (label, rest) = read_head(line)?;
        if self.is_taken(label) {
            return Err(Cause::DuplicateLabel);
        }
        Ok((label, read_rest(isa, rest)?))
    }

    /// Adds what a line says, or answers what stands against it.
    pub fn add_said(
        &mut self,
        alloc: Global,
        number: u32,
        label: Option<&[u8]>,
        what: Statement<'_>,
    ) -> Result<Option<Cause>, AllocError>
        requires label { IfSome label (λ word. IsTrue (is_label word.now)) }
        requires target { IsTrue (names_label what) }
        ensures said { IfOk result (λ fault. LeadsTo (said_step number label.entry what.entry self.old) fault self.new) }
        ensures kept { IfOk result (λ fault. IfSome fault (λ _. drafts_of self.new ≡ drafts_of self.old)) }
    {
        match self.hindrance(label, &what) {
            Some(cause) => Ok(Some(cause)),
            None => {
                self.add_label(alloc, owned_label(label))?;
                self.add_what(alloc, number, what)?;
                Ok(None)
            }
        }
    }

    fn add_text(
        &mut self,
        isa: InstructionSet,
        alloc: Global,
        jumps: &mut Vec<Jump>,
        number: u32,
        line: &[u8],
    ) -> Result<Option<Cause>, AllocError>
        ensures said { IfOk result (λ fault. LeadsTo (line_step isa number line.now self.old) fault self.new) }
        ensures asked { OnOk result (KeepsJumpOf isa number line.now self.old jumps.old.items jumps.new.items) }
        ensures kept { IfOk result (λ fault. IfSome fault (λ _. drafts_of self.new ≡ drafts_of self.old)) }
    {
        match self.judge(isa, line) {
            Ok((label, what)) => {
                keep_jump(jumps, number, &what)?;
                self.add_said(alloc, number, label, what)
            }
            Err(cause) => Ok(Some(cause)),
        }
    }

    /// Adds what a line says, and keeps its branch to a label, which may stand further down. Answers what is wrong with the
    /// line but for that label.
    fn add_line(
        &mut self,
        isa: InstructionSet,
        alloc: Global,
        jumps: &mut Vec<Jump>,
        number: u32,
        line: &[u8],
    ) -> Result<Option<Cause>, AllocError>
        ensures said { IfOk result (λ fault. LeadsTo (line_step isa number line.now self.old) fault self.new) }
        ensures asked { OnOk result (KeepsJumpOf isa number line.now self.old jumps.old.items jumps.new.items) }
        ensures kept { IfOk result (λ fault. IfSome fault (λ _. drafts_of self.new ≡ drafts_of self.old)) }
    {
        match line {
            // An empty line says nothing.
            [] => Ok(None),
            [_, ..] => self.add_text(isa, alloc, jumps, number, line),
        }
    }

    #[tactic(auto, using(crate::proofs::WalkLemmas::has_own), unfolding(crate::specs::Walk::is_taken))]
    fn has_label(&self, label: &[u8]) -> bool
        ensures { result ≡ is_among label.now (own_labels (all_drafts (drafts_of self.now))) }
    {
        self.is_taken(Some(label))
    }

    /// The line of the first branch to a label that neither a block nor a line of this rest of the text has.
    fn first_missed(&self, mut jumps: Vec<Jump>, rest: &[u8]) -> Option<u32>
        ensures { result ≡ first_line (still_missed self.now rest.now jumps.items) }
    {
        jumps.retain(|jump| !self.has_label(jump.target.as_bytes()));
        leave_out_labels(&mut jumps, rest);
        first_branch(&jumps)
    }
}

/// Leaves out the branches to labels that the lines of a text have.
fn leave_out_labels(jumps: &mut Vec<Jump>, text: &[u8])
    ensures { LeavesOut (labels_of (lines_of text.now)) jumps.old.items jumps.new.items }
{
    let mut rest = text;
    while let Some((line, after)) = first_line(rest) {
        if jumps.is_empty() {
            return;
        }
        leave_out_label(jumps, label_field(line));
        rest = after;
    }
}

fn any_labelled(blocks: &[BlockReader], label: &[u8]) -> bool
    ensures { result ≡ list_any (λ block. label_is label.now block.label) blocks.now }
{
    blocks.iter().any(|block| label_is(label, &block.label))
}

/// Whether a block has this label.
pub fn label_is(label: &[u8], other: &Option<Label>) -> bool
    ensures { result ≡ label_is label.now other.now }
{
    match other {
        Some(other) => other.as_bytes() == label,
        None => false,
    }
}

/// A line without the carriage return that belongs to its line feed, where it ends in one.
#[tactic(auto, using(crate::proofs::LineLemmas::without_last))]
pub fn without_return(line: &[u8]) -> &[u8]
    ensures { result.now ≡ without_return line.now }
{
    match line.split_last() {
        None => line,
        Some((last, rest)) => { if *last == b'\r' { rest } else { line } }
    }
}

/// The first line of a text, without its end, and the text after it; none of a text that has no bytes.
#[inline(always)]
pub fn first_line(text: &[u8]) -> Option<(&[u8], &[u8])>
    ensures found { IsFirstLine result (lines_of text.now) }
    ensures shorter { IfSome result (λ found. length found.1.now < length text.now) }
{
    if text.is_empty() {
        return None;
    }
    match memchr(b'\n', text) {
        Some(end) => Some((without_return(&text[..end]), &text[end + 1..])),
        None => Some((text, &[])),
    }
}

/// The fault of a line, or that of a branch to no label, which stands in no later line and comes before the counts in its own.
fn earlier(missed: Option<u32>, line: u32, cause: Cause) -> ReadFault
    ensures { failed result ≡ unless_missed missed (Err (line, cause)) }
{
    match missed {
        Some(line) => ReadFault::at(line, Cause::UnknownTarget),
        None => ReadFault::at(line, cause),
    }
}

/// The blocks of a text as they are read.
fn read_drafts(isa: InstructionSet, alloc: Global, text: &[u8]) -> Result<TextReader, ReadFault>
    requires { length text.now ≤ MOST_BYTES }
    ensures few { IfOk result (λ reader. length (all_drafts (drafts_of reader)) ≤ MOST_BLOCKS) }
    ensures whole { IfOk result (λ reader. IsTrue (list_all is_whole (all_drafts (drafts_of reader)))) }
    ensures ok { IfOk result (λ reader. text_read isa text.now ≡ Ok (drafts_of reader)) }
    ensures err { IfErr result (λ fault. Fails fault (text_read isa text.now)) }
{
    let mut reader = TextReader::new(alloc);
    let mut jumps = Vec::new(alloc);
    let mut rest = text;
    let mut number = 1;
    while let Some((line, after)) = first_line(rest) {
        match reader.add_line(isa, alloc, &mut jumps, number, line)? {
            None => {
                number += 1;
                rest = after;
            }
            Some(cause) => {
                let missed = reader.first_missed(jumps, rest);
                return Err(earlier(missed, number, cause));
            }
        }
    }
    match reader.first_missed(jumps, &[]) {
        Some(line) => Err(ReadFault::at(line, Cause::UnknownTarget)),
        None => Ok(reader),
    }
}

/// The index of this label among those of the blocks.
fn index_among(labels: &[Option<Label>], label: &[u8]) -> Option<usize>
    ensures value { result ≡ position (λ other. label_is label.now other) labels.now }
    ensures bound { IfSome result (λ index. index < length labels.now) }
{
    labels.iter().position(|other| label_is(label, other))
}

/// The number of the block with this label, where these are the labels of all blocks.
fn target_number(labels: &[Option<Label>], target: &Option<Label>) -> u8
    requires { length labels.now ≤ MOST_BLOCKS }
    ensures { result ≡ number_among labels.now target.now }
{
    match target {
        Some(label) => match index_among(labels, label.as_bytes()) {
            Some(index) => index as u8,
            None => 0,
        },
        None => 0,
    }
}

fn block_labels(alloc: Global, blocks: &[BlockReader]) -> Result<Vec<Option<Label>>, AllocError>
    ensures { IfOk result (λ labels. labels.items ≡ map (λ block. block.label) blocks.now) }
{
    let mut labels = Vec::with_capacity(alloc, blocks.len())?;
    for block in blocks {
        labels.push(copied_label(&block.label))?;
    }
    Ok(labels)
}

/// The blocks of a program.
fn all_blocks(alloc: Global, blocks: Vec<BlockReader>) -> Result<Vec<Block>, AllocError>
    requires few { length blocks.items ≤ MOST_BLOCKS }
    requires whole { IsTrue (list_all is_whole (map draft_of blocks.items)) }
    ensures few { IfOk result (λ made. length made.items ≡ length blocks.items) }
    ensures made { IfOk result (λ made. map block_parts made.items ≡ aimed_blocks (map draft_of blocks.items)) }
{
    let labels = block_labels(alloc, &blocks)?;
    let mut made = Vec::with_capacity(alloc, blocks.len())?;
    let mut rest = blocks.into_iter();
    while let Some(block) = rest.next() {
        let number = target_number(&labels, &block.target);
        made.push(block.into_block(number))?;
    }
    Ok(made)
}

/// The program of a text (docs/SERIAL_TEXT.md).
///
/// # Errors
///
/// The fault of the first faulty line. Of a text that is too long it is `TextTooLong`, and where memory ran out `Memory`, both at
/// line 0.
pub fn read_program(isa: InstructionSet, alloc: Global, text: &[u8]) -> Result<Program, ReadFault>
    ensures ok { IfOk result (λ program. program_in isa text.now ≡ Ok (map block_parts program)) }
    ensures err { IfErr result (λ fault. Fails fault (program_in isa text.now)) }
{
    if text.len() > MOST_BYTES {
        return Err(ReadFault::at(0, Cause::TextTooLong));
    }
    let mut reader = read_drafts(isa, alloc, text)?;
    reader.end_block()?;
    Ok(Program::new(all_blocks(alloc, reader.done)?))
}
