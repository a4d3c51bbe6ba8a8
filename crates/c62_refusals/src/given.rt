//! What calls are made on. `None` where memory was refused.

ghost use Rattle.std.specs.Prelude.{◌≡◌, ◌++◌, ◌∷◌, [], IfSome, OnSome, map, Some};
ghost use Rattle.std.specs.String.{string_bytes};
ghost use Rattle.c62_listing.specs.Listing.{listing};
ghost use Rattle.c62_board.specs.State.{Has};
ghost use Rattle.c62_pack.specs.Packets.{ArePackets};
ghost use Rattle.c62_refusals.specs.Given.{SaysProgram, IsLongest, IsLongestIn, IsEmptyBoard, IsTurned, IsWholeBoard, begun_entries, IsBegunBoard, IsPackedByTurns, ArePackedByTurns, ArePacketsIn};

use c62_board::{Board, Entry, Turn};
use c62_depend::Plan;
use c62_listing::list;
use c62_op::InstructionSet;
use c62_pack::packets_of;
use c62_packet::{PacketBlock, Packets};
use c62_read::{Block, MOST_BLOCKS, Program, read_program};
use c62_work::turns;
use std::alloc::Global;

/// The ejections of a board.
pub(crate) const BUDGET: u16 = 1;

/// The most entries of a board that is begun: before the ejection, where there is one.
const BEGUN: usize = 8;

/// The program of a text.
pub(crate) fn program_of(alloc: Global, text: &str) -> Option<Program>
    ensures { IfSome result (SaysProgram text.now) }
{
    match read_program(InstructionSet::Core, alloc, text.as_bytes()) {
        Ok(program) => Some(program),
        Err(_) => None,
    }
}

/// The longest of these blocks.
fn longest(blocks: Vec<Block>) -> Option<Block>
    ensures { IfSome result (IsLongest blocks.items) }
{
    blocks.into_iter().max_by_key(|block| block.insns().len())
}

/// The longest block of a text.
pub(crate) fn block_of(alloc: Global, text: &str) -> Option<Block>
    ensures { IfSome result (IsLongestIn text.now) }
{
    longest(program_of(alloc, text)?.into_blocks())
}

fn planned(alloc: Global, block: Block) -> Option<Plan>
    ensures { IfSome result (λ plan. plan ≡ block) }
{
    match Plan::new(alloc, block) {
        Ok(plan) => Some(plan),
        Err(_) => None,
    }
}

/// The plan of the longest block.
pub(crate) fn plan_of(alloc: Global, text: &str) -> Option<Plan>
    ensures { IfSome result (IsLongestIn text.now) }
{
    planned(alloc, block_of(alloc, text)?)
}

fn begun(alloc: Global, plan: Plan) -> Option<Board>
    ensures { IfSome result (Has plan [] BUDGET) }
{
    match Board::new(alloc, plan, BUDGET) {
        Ok(board) => Some(board),
        Err(_) => None,
    }
}

/// An empty board of the longest block.
fn empty_board(alloc: Global, text: &str) -> Option<Board>
    ensures { IfSome result (IsEmptyBoard text.now) }
{
    begun(alloc, plan_of(alloc, text)?)
}

/// The board after all turns of both sides.
fn turned(mut board: Board) -> Option<Board>
    ensures { IfSome result (IsTurned board) }
{
    match turns(&mut board) {
        Turn::Memory => None,
        _ => Some(board),
    }
}

/// A board of the longest block on which both sides had all their turns.
pub(crate) fn whole_board(alloc: Global, text: &str) -> Option<Board>
    ensures { IfSome result (IsWholeBoard text.now) }
{
    turned(empty_board(alloc, text)?)
}

/// The first entries of a whole journal, without its last.
fn begun_entries(entries: &[Entry]) -> Option<&[Entry]>
    ensures { IfSome result (λ front. front.now ≡ begun_entries entries.now) }
{
    if entries.len() > BEGUN {
        entries.get(..BEGUN)
    } else {
        entries.get(..entries.len().saturating_sub(1))
    }
}

/// The board that the first entries of a whole one's journal lead to.
fn begun_of(alloc: Global, whole: &Board) -> Option<Board>
    ensures { IfSome result (Has whole.now.plan (begun_entries whole.now.journal) BUDGET) }
{
    let Ok(plan) = whole.plan().copy(alloc) else {
        return None;
    };
    let entries = begun_entries(whole.journal())?;
    match Board::replay(alloc, plan, BUDGET, entries) {
        Ok(board) => Some(board),
        Err(_) => None,
    }
}

/// A board of it on which they had their first turns. Its journal is full.
pub(crate) fn begun_board(alloc: Global, text: &str) -> Option<Board>
    ensures { IfSome result (IsBegunBoard text.now) }
{
    begun_of(alloc, &whole_board(alloc, text)?)
}

/// The packets of a complete board.
pub(crate) fn packed(alloc: Global, board: &Board) -> Option<PacketBlock>
    ensures { IfSome result (ArePackets board.now.plan board.now.spots) }
{
    if !board.complete() {
        return None;
    }
    match packets_of(alloc, board) {
        Ok(block) => Some(block),
        Err(_) => None,
    }
}

/// The packets of a block, which both sides place by turns.
fn packed_block(alloc: Global, block: Block) -> Option<PacketBlock>
    ensures { IfSome result (IsPackedByTurns block) }
{
    let board = turned(begun(alloc, planned(alloc, block)?)?)?;
    packed(alloc, &board)
}

/// The list with one more block, where there is room for it.
pub(crate) fn with_block(mut packets: Packets, block: PacketBlock) -> Option<Packets>
    ensures { IfSome result (λ more. more ≡ packets ++ block ∷ []) }
{
    if packets.len() >= MOST_BLOCKS {
        return None;
    }
    match packets.push(block) {
        Ok(()) => Some(packets),
        Err(_) => None,
    }
}

/// The packets of a program's blocks.
fn packets_of_program(alloc: Global, program: Program) -> Option<Packets>
    ensures { IfSome result (ArePackedByTurns program) }
{
    let mut packets = Packets::new(alloc);
    for block in program.into_blocks() {
        let packed = packed_block(alloc, block)?;
        packets = with_block(packets, packed)?;
    }
    Some(packets)
}

/// The packets of a text's blocks.
pub(crate) fn packets_in(alloc: Global, text: &str) -> Option<Packets>
    ensures { IfSome result (ArePacketsIn text.now) }
{
    packets_of_program(alloc, program_of(alloc, text)?)
}

/// The listing of packets whose branches all have targets.
pub(crate) fn listing_of(alloc: Global, packets: &Packets) -> Option<String>
    ensures { IfSome result (λ text. string_bytes text ≡ listing packets.now) }
{
    if !packets.closed() {
        return None;
    }
    match list(alloc, packets) {
        Ok(text) => Some(text),
        Err(_) => None,
    }
}
