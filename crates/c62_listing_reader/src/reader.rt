//! Reads listings.

ghost use Rattle.std.specs.Prelude.{◌≡◌, ◌+◌, ◌<◌, ◌≤◌, ◌++◌, ◌∷◌, [], All, List, length, map, OnOk, IfOk, MatchResult, Ok, IsTrue};
ghost use Rattle.c62_line.specs.Line.{line_of, parts_of, said_of};
ghost use Rattle.c62_read.specs.declared.limits.TheConstants.{MOST_BLOCKS};
ghost use Rattle.c62_packet.specs.declared.limits.TheConstants.{MOST_CYCLES};
ghost use Rattle.c62_packet.specs.Packed.{IsPacketBlock};
ghost use Rattle.c62_packet.specs.Packets.{is_closed};
ghost use Rattle.c62_listing_reader.specs.declared.fault.ListFault.TheVariants.{Memory as NoMemory};
ghost use Rattle.c62_listing_reader.specs.Begin.{rest_of, is_beside};
ghost use Rattle.c62_listing_reader.specs.Said.{Draft, above_of, above_next, all_drafts};
ghost use Rattle.c62_listing_reader.specs.Faults.{draft_of, IsFirstFaulty, IsRead, cycles_added};
ghost use Rattle.c62_listing_reader.specs.Fine.{IsFine};
ghost use Rattle.c62_listing_reader.specs.Reading.{draft_open, drafts_of, said_by, read_as, HasUnit, Fits, ReadsBlocks, PacksBlocks, AddsSays, AddsLine, AddsSaid, RefusesLines, TellsOfLine, IsBlockOf, RefusesBlocks, Refuses};

use crate::draft::{Blocks, OpenBlock};
use crate::fault::{LineFault, ListFault};
use crate::judge::{is_beside, is_gap, judge};
use crate::line::{Above, Front, beginning, rest};
use crate::names::Names;
use crate::text::{content, first_line};
use c62_op::InstructionSet;
use c62_packet::{BlockFault, PacketBlock, Packets};
use c62_read::{Cause, ReadFault, Reading, What, read_insn};
use std::alloc::{AllocError, Global};

/// The longest listing, in bytes.
pub const MOST_BYTES: usize = 8_388_608;

/// Room for the longest spelling of a line, in bytes.
const LONGEST_LINE: usize = 64;

fn above_of(what: &What) -> Above
    ensures { result ≡ above_of (said_of what.now) }
{
    match what {
        What::Empty => Above::Heading,
        What::Nop(cycles) => Above::Pause(*cycles),
        What::Insn(insn) => Above::Issue(insn.unit()),
        What::Jump(insn, _) => Above::Issue(insn.unit()),
    }
}

/// What the next line asks of one that begins and says so.
fn above_next(front: Front, what: &What) -> Above
    ensures { result ≡ above_next front (said_of what.now) }
{
    if is_gap(front) {
        Above::Start
    } else {
        above_of(what)
    }
}

impl OpenBlock {
    fn add_what(
        &mut self,
        names: &Names<'_>,
        beside: bool,
        line: u32,
        what: &What,
    ) -> Result<(), AllocError>
        requires unit { HasUnit (said_of what.now) }
        requires short { self.old.cycles + cycles_added beside (said_of what.now) ≤ MOST_CYCLES }
        ensures { OnOk result (AddsSays names.now beside line (said_of what.now) self.old self.new) }
    {
        match what {
            What::Empty => Ok(()),
            What::Nop(cycles) => {
                self.add_pause(*cycles);
                Ok(())
            }
            What::Insn(insn) => self.add_insn(beside, *insn, line),
            What::Jump(insn, target) => {
                let number = names.number(target.as_bytes());
                self.add_insn(beside, insn.aimed(number), line)
            }
        }
    }

    /// Adds what a line of the block says.
    fn add(
        &mut self,
        names: &Names<'_>,
        line: u32,
        front: Front,
        reading: &Reading,
    ) -> Result<(), AllocError>
        requires unit { HasUnit (said_of reading.now.what) }
        requires short { self.old.cycles + cycles_added (is_beside front) (said_of reading.now.what) ≤ MOST_CYCLES }
        ensures { OnOk result (AddsLine names.now line (said_by front reading.now) self.old self.new) }
    {
        self.add_label(&reading.label);
        self.add_what(names, is_beside(front), line, &reading.what)
    }
}

impl Blocks {
    /// Adds what a line says. An empty line ends a block.
    fn add(
        &mut self,
        alloc: Global,
        names: &Names<'_>,
        line: u32,
        front: Front,
        reading: &Reading,
    ) -> Result<(), AllocError>
        requires { Fits (drafts_of self.old) (said_by front reading.now) }
        ensures { OnOk result (AddsSaid names.now line (said_by front reading.now) self.old self.new) }
    {
        if is_gap(front) {
            return self.end_block();
        }
        self.open_block(alloc);
        match &mut self.current {
            Some(block) => block.add(names, line, front, reading),
            None => unreachable!(),
        }
    }
}

/// What the rest of a line says.
fn read_rest(isa: InstructionSet, front: Front, line: &[u8]) -> Result<Reading, ReadFault>
    ensures { read_as result ≡ line_of isa (rest_of front line.now) }
{
    read_insn(isa, rest(front, line))
}

fn fault_of_line(line: u32, fault: LineFault) -> ListFault
    ensures { TellsOfLine line fault result }
{
    match fault {
        LineFault::Read(cause) => ListFault::Read(ReadFault { line, cause }),
        LineFault::Shape => ListFault::Shape(line),
        LineFault::Memory => ListFault::Memory,
    }
}

/// The blocks that the lines of a text say.
fn read_blocks(isa: InstructionSet, alloc: Global, names: &Names<'_>) -> Result<Blocks, ListFault>
    requires { length names.now.text.now ≤ MOST_BYTES }
    ensures { ReadsBlocks isa names.now result }
{
    let mut spelling = String::with_capacity(alloc, LONGEST_LINE)?;
    let mut blocks = Blocks::new(alloc);
    let mut above = Above::Start;
    let mut number = 1;
    let mut rest = names.text;
    while let Some(cut) = first_line(rest) {
        let front = beginning(content(&cut));
        let read = read_rest(isa, front, content(&cut));
        match judge(
            isa,
            &mut spelling,
            names,
            &blocks,
            above,
            &cut,
            front,
            &read,
        ) {
            Ok(()) => {}
            Err(fault) => return Err(fault_of_line(number, fault)),
        }
        let Ok(reading) = read else { unreachable!() };
        above = above_next(front, &reading.what);
        blocks.add(alloc, names, number, front, &reading)?;
        number += 1;
        rest = cut.rest;
    }
    Ok(blocks)
}

fn fault_of_block(number: u8, fault: BlockFault) -> ListFault
    ensures { (drafts : List Draft) → IsFirstFaulty drafts number fault → RefusesBlocks drafts result }
{
    match fault {
        BlockFault::TwoBranches => ListFault::TwoBranches(number),
        BlockFault::NotDrained => ListFault::NotDrained(number),
        BlockFault::Unlawful(cycle, rule) => ListFault::Unlawful(number, cycle, rule),
    }
}

/// The packet block of a block as it was read.
fn packet_block(block: OpenBlock) -> Result<PacketBlock, BlockFault>
    requires { IsFine (draft_open block) }
    ensures { IsBlockOf (draft_open block) result }
{
    PacketBlock::new(block.label, block.cycles, block.placed)
}

fn put(packets: &mut Packets, block: PacketBlock) -> Result<(), ListFault>
    requires { length packets.old < MOST_BLOCKS }
    ensures { MatchResult result (λ _. packets.new ≡ packets.old ++ block ∷ []) (λ fault. fault ≡ NoMemory) }
{
    match packets.push(block) {
        Ok(()) => Ok(()),
        Err(_) => Err(ListFault::Memory),
    }
}

/// The packets of blocks as they were read.
fn packets_of(alloc: Global, blocks: Vec<OpenBlock>) -> Result<Packets, ListFault>
    requires few { length blocks.items ≤ MOST_BLOCKS }
    requires fine { All IsFine (map draft_open blocks.items) }
    ensures { PacksBlocks (map draft_open blocks.items) result }
{
    let mut packets = Packets::new(alloc);
    let mut left = blocks;
    left.reverse();
    let mut number = 0;
    while let Some(block) = left.pop() {
        let packed = match packet_block(block) {
            Ok(packed) => packed,
            Err(fault) => return Err(fault_of_block(number, fault)),
        };
        put(&mut packets, packed)?;
        number += 1;
    }
    Ok(packets)
}

/// The packets that a text lists. Each branch to a block goes to one that is there and has a label.
///
/// # Errors
///
/// `Read` with `TextTooLong` where the text has more than [`MOST_BYTES`] bytes. Else the first fault of the first faulty line.
/// Else, for the first faulty block, `TwoBranches`, `NotDrained` or `Unlawful`. `Memory` where memory ran out
/// (`docs/LISTING.md`, "Faults of a line" and "Faults of a block").
pub fn read_listing(isa: InstructionSet, alloc: Global, text: &[u8]) -> Result<Packets, ListFault>
    ensures read { MatchResult result (λ packets. IsRead isa text.now packets) (λ fault. Refuses isa text.now fault) }
    ensures closed { IfOk result (λ packets. IsTrue (is_closed packets)) }
{
    if text.len() > MOST_BYTES {
        return Err(ListFault::Read(ReadFault {
            line: 0,
            cause: Cause::TextTooLong,
        }));
    }
    let names = Names::new(alloc, text)?;
    let mut blocks = read_blocks(isa, alloc, &names)?;
    blocks.end_block()?;
    packets_of(alloc, blocks.done)
}
