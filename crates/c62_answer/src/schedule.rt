//! Packs the blocks of a program.

ghost use Rattle.std.specs.Thread.{IsSync};
ghost use Rattle.std.specs.Prelude.{◌≡◌, ◌<◌, ◌≤◌, true, false, length, map, Some, IfOk, IsTrue, OnOk};
ghost use Rattle.c62_sheet.specs.Least.{IsComplete};
ghost use Rattle.c62_depend.specs.Plan.{insns_of};
ghost use Rattle.c62_board.specs.State.{IsSound};
ghost use Rattle.c62_read.specs.declared.limits.TheConstants.{MOST_BLOCKS};
ghost use Rattle.c62_packet.specs.Packets.{is_closed};
ghost use Rattle.c62_answer.specs.Schedule.{AreScheduled, AddsPackets, ArePacketsFrom, AreShown, IsMade, IsScheduled, IsShown, IsShownOf, IsTurned};

use c62_board::{Board, Turn};
use c62_command::{Packing, Showing};
use c62_depend::Plan;
use c62_pack::{packets_of, placed_at, placed_of};
use c62_packet::{PacketBlock, Packets};
use c62_read::{Block, Program};
use c62_shortest::{Schedule, shortest};
use c62_show::{Shown, limits_of, limits_with, lives_told};
use c62_why::{critical_lines, whys_told};
use c62_work::{FreeGate, Options, finish, schedule, turns};
use rayon::current_num_threads;
use rayon::prelude::*;
use std::alloc::{AllocError, Global};
use std::sync::Wait;
use std::thread::Threads;

/// The most turns of a worker.
const WORKER_TURNS: u32 = 100_000;

/// How much there is to place in a run of blocks at least, which is what another thread is worth.
const LEAST_WORK: usize = 256;

/// As how many instructions each block counts, for the thread that its workers want.
const WORK_OF_A_BLOCK: usize = 16;

fn plan_of(alloc: Global, block: Block) -> Result<Plan, AllocError>
    ensures { IfOk result (λ plan. plan ≡ block) }
{
    match Plan::new(alloc, block) {
        Ok(plan) => Ok(plan),
        Err((_, error)) => Err(error),
    }
}

/// A board of a plan, completed by turns of both sides on this thread.
fn turned_board(alloc: Global, plan: &Plan, budget: u16) -> Result<Board, AllocError>
    ensures { IfOk result (IsTurned plan.now budget) }
{
    let mut board = match Board::new(alloc, plan.copy(alloc)?, budget) {
        Ok(board) => board,
        Err((_, error)) => return Err(error),
    };
    match turns(&mut board) {
        Turn::Memory => Err(AllocError),
        _ => finish(alloc, board, plan),
    }
}

/// A complete board of a block, by turns of both sides on this thread.
fn board_by_turns(alloc: Global, block: Block, packing: Packing) -> Result<Board, AllocError>
    ensures { IfOk result (IsMade packing block) }
{
    let plan = plan_of(alloc, block)?;
    let board = turned_board(alloc, &plan, packing.budget)?;
    // It tells what holds of every board.
    board.plan();
    Ok(board)
}

/// A complete board of a block, by a worker for each side.
fn board_by_workers<R: Threads + Wait + Sync>(
    rt: &R,
    alloc: Global,
    block: Block,
    packing: Packing,
) -> Result<Board, AllocError>
    requires { packing.turns ≡ false }
    ensures { IfOk result (IsMade packing block) }
{
    let plan = plan_of(alloc, block)?;
    let options = Options {
        turns: WORKER_TURNS,
        budget: packing.budget,
    };
    let board = schedule(rt, alloc, plan, options, &FreeGate)?;
    // It tells what holds of every board.
    board.plan();
    Ok(board)
}

/// The packets of the shortest schedule that is found of a complete board's block.
#[tactic(auto, using(crate::proofs::Schedules::short_packets))]
fn shortest_packets(
    alloc: Global,
    board: &Board,
    packing: Packing,
) -> Result<PacketBlock, AllocError>
    requires complete { IsComplete (insns_of board.now.plan) board.now.spots }
    requires asked { packing.shortest ≡ true }
    ensures { IfOk result (ArePacketsFrom packing board.now.plan board.now.spots) }
{
    let found = shortest(alloc, board, u32::from(packing.choices))?;
    Ok(found.schedule.packets)
}

/// The packets of a complete board.
#[tactic(auto, using(crate::proofs::Schedules::own_packets))]
fn own_packets(alloc: Global, board: &Board, packing: Packing) -> Result<PacketBlock, AllocError>
    requires complete { IsComplete (insns_of board.now.plan) board.now.spots }
    requires plain { packing.shortest ≡ false }
    ensures { IfOk result (ArePacketsFrom packing board.now.plan board.now.spots) }
{
    let packets = packets_of(alloc, board)?;
    Ok(packets)
}

/// The packets of a complete board, or where it is asked for of the shortest schedule that is found.
fn packets_from(alloc: Global, board: &Board, packing: Packing) -> Result<PacketBlock, AllocError>
    requires { IsComplete (insns_of board.now.plan) board.now.spots }
    ensures { IfOk result (ArePacketsFrom packing board.now.plan board.now.spots) }
{
    if packing.shortest {
        shortest_packets(alloc, board, packing)
    } else {
        own_packets(alloc, board, packing)
    }
}

/// Appends the packets of a block, of which a complete board is given.
fn push_packets(
    alloc: Global,
    packets: &mut Packets,
    board: &Board,
    packing: Packing,
) -> Result<(), AllocError>
    requires complete { IsComplete (insns_of board.now.plan) board.now.spots }
    requires few { length packets.old < MOST_BLOCKS }
    ensures pushed { OnOk result (AddsPackets packing board.now.plan board.now.spots packets.old packets.new) }
{
    match packets.push(packets_from(alloc, board, packing)?) {
        Ok(()) => Ok(()),
        Err((_, error)) => Err(error),
    }
}

/// The packets of a program's blocks, packed by turns.
///
/// # Errors
///
/// Where memory ran out.
pub fn packets_by_turns(
    alloc: Global,
    program: Program,
    packing: Packing,
) -> Result<Packets, AllocError>
    requires { packing.turns ≡ true }
    ensures packed { IfOk result (AreScheduled packing program) }
    ensures closed { IfOk result (λ packets. IsTrue (is_closed packets)) }
{
    let mut packets = Packets::new(alloc);
    for block in program.into_blocks() {
        let board = board_by_turns(alloc, block, packing)?;
        push_packets(alloc, &mut packets, &board, packing)?;
    }
    Ok(packets)
}

/// How much there is to place in these blocks.
fn work_of(blocks: &[Block]) -> usize {
    let mut work = 0usize;
    for block in blocks {
        work = work.saturating_add(block.insns().len().saturating_add(WORK_OF_A_BLOCK));
    }
    work
}

/// How many blocks a run has at least, so that there is enough to place in it: all of them where there is one processor.
fn least_run<R: Threads>(rt: &R, blocks: &[Block]) -> usize {
    if current_num_threads(rt) < 2 {
        return blocks.len();
    }
    let runs = (work_of(blocks) / LEAST_WORK).max(1);
    blocks.len().div_ceil(runs)
}

/// The packets of a block, packed by workers.
fn packets_of_block<R: Threads + Wait + Sync>(
    rt: &R,
    alloc: Global,
    block: Block,
    packing: Packing,
) -> Result<PacketBlock, AllocError>
    requires { packing.turns ≡ false }
    ensures { IfOk result (IsScheduled packing block) }
{
    let board = board_by_workers(rt, alloc, block, packing)?;
    Ok(packets_from(alloc, &board, packing)?)
}

/// The packets of blocks, in their order. The blocks are parted into runs, which are packed side by side.
fn packed_side_by_side<R: Threads + Wait + Sync>(
    rt: &R,
    alloc: Global,
    blocks: Vec<Block>,
    packing: Packing,
) -> Result<Vec<PacketBlock>, AllocError>
    requires { packing.turns ≡ false }
    ensures { IfOk result (λ made. AreScheduled packing blocks.items made.items) }
{
    let least = least_run(rt, &blocks);
    let pack = move |block: Block| -> Result<PacketBlock, AllocError>
        requires { IsSync R.row × (packing.turns ≡ false) }
        ensures { IfOk result (IsScheduled packing block) }
    { packets_of_block(rt, alloc, block, packing) };
    blocks
        .into_par_iter()
        .with_min_len(least)
        .map(pack)
        .collect::<Result<Vec<PacketBlock>, AllocError>>(rt, alloc)?
}

/// These packets, as those of a program.
fn gathered(alloc: Global, made: Vec<PacketBlock>) -> Result<Packets, AllocError>
    requires { length made.items ≤ MOST_BLOCKS }
    ensures { IfOk result (λ packets. packets ≡ made.items) }
{
    let mut packets = Packets::new(alloc);
    for block in made {
        match packets.push(block) {
            Ok(()) => {}
            Err((_, error)) => return Err(error),
        }
    }
    Ok(packets)
}

/// The packets of a program's blocks, packed by workers.
///
/// # Errors
///
/// Where memory ran out.
pub fn packets_by_workers<H: AllocGlobal + Threads + Wait + Sync>(
    rt: &H,
    program: Program,
    packing: Packing,
) -> Result<Packets, AllocError>
    requires { packing.turns ≡ false }
    ensures packed { IfOk result (AreScheduled packing program) }
    ensures closed { IfOk result (λ packets. IsTrue (is_closed packets)) }
{
    let blocks = program.into_blocks();
    let made = packed_side_by_side(rt, rt.alloc(), blocks, packing)?;
    Ok(gathered(rt.alloc(), made)?)
}

/// What is shown of a complete board.
#[tactic(auto, using(crate::proofs::Schedules::own_packets))]
fn shown_own(alloc: Global, board: &Board, showing: Showing) -> Result<Shown, AllocError>
    requires complete { IsComplete (insns_of board.now.plan) board.now.spots }
    requires plain { showing.packing.shortest ≡ false }
    ensures { IfOk result (IsShownOf showing board.now.plan board.now.spots) }
{
    let plan = board.plan();
    let limits = limits_of(alloc, plan)?;
    let packets = packets_of(alloc, board)?;
    let placed = placed_of(alloc, board)?;
    let cycles = packets.length();
    let whys = whys_told(alloc, plan, cycles, &placed, showing.why)?;
    let critical = critical_lines(alloc, plan, cycles, &placed)?;
    let lives = lives_told(alloc, &packets, showing.registers)?;
    Ok(Shown {
        limits: Some(limits),
        packets,
        critical,
        whys,
        lives,
    })
}

/// What is shown of the shortest schedule that is found of a complete board's block.
fn shown_shortest(alloc: Global, board: &Board, showing: Showing) -> Result<Shown, AllocError>
    requires complete { IsComplete (insns_of board.now.plan) board.now.spots }
    requires asked { showing.packing.shortest ≡ true }
    ensures { IfOk result (IsShownOf showing board.now.plan board.now.spots) }
{
    let found = shortest(alloc, board, u32::from(showing.packing.choices))?;
    let plan = board.plan();
    let limits = limits_with(alloc, plan, found.least)?;
    let Schedule { spots, packets } = found.schedule;
    let placed = placed_at(alloc, plan, &spots)?;
    let cycles = packets.length();
    let whys = whys_told(alloc, plan, cycles, &placed, showing.why)?;
    let critical = critical_lines(alloc, plan, cycles, &placed)?;
    let lives = lives_told(alloc, &packets, showing.registers)?;
    Ok(Shown {
        limits: Some(limits),
        packets,
        critical,
        whys,
        lives,
    })
}

/// What is shown of a complete board, or where it is asked for of the shortest schedule that is found.
fn shown_of(alloc: Global, board: &Board, showing: Showing) -> Result<Shown, AllocError>
    requires { IsComplete (insns_of board.now.plan) board.now.spots }
    ensures { IfOk result (IsShownOf showing board.now.plan board.now.spots) }
{
    if showing.packing.shortest {
        shown_shortest(alloc, board, showing)
    } else {
        shown_own(alloc, board, showing)
    }
}

/// What is shown of a program's blocks, packed by turns.
///
/// # Errors
///
/// Where memory ran out.
pub fn shown_by_turns(
    alloc: Global,
    program: Program,
    showing: Showing,
) -> Result<Vec<Shown>, AllocError>
    requires { showing.packing.turns ≡ true }
    ensures { IfOk result (λ shown. AreShown showing program shown.items) }
{
    let mut shown = Vec::new(alloc);
    for block in program.into_blocks() {
        let board = board_by_turns(alloc, block, showing.packing)?;
        let one = shown_of(alloc, &board, showing)?;
        shown.push(one)?;
    }
    Ok(shown)
}

/// What is shown of a block, packed by workers.
fn shown_of_block<R: Threads + Wait + Sync>(
    rt: &R,
    alloc: Global,
    block: Block,
    showing: Showing,
) -> Result<Shown, AllocError>
    requires { showing.packing.turns ≡ false }
    ensures { IfOk result (IsShown showing block) }
{
    let board = board_by_workers(rt, alloc, block, showing.packing)?;
    let shown = shown_of(alloc, &board, showing)?;
    Ok(shown)
}

/// What is shown of blocks, in their order. They are packed as [`packed_side_by_side`] does.
fn shown_side_by_side<R: Threads + Wait + Sync>(
    rt: &R,
    alloc: Global,
    blocks: Vec<Block>,
    showing: Showing,
) -> Result<Vec<Shown>, AllocError>
    requires { showing.packing.turns ≡ false }
    ensures { IfOk result (λ shown. AreShown showing blocks.items shown.items) }
{
    let least = least_run(rt, &blocks);
    let show = move |block: Block| -> Result<Shown, AllocError>
        requires { IsSync R.row × (showing.packing.turns ≡ false) }
        ensures { IfOk result (IsShown showing block) }
    { shown_of_block(rt, alloc, block, showing) };
    blocks
        .into_par_iter()
        .with_min_len(least)
        .map(show)
        .collect::<Result<Vec<Shown>, AllocError>>(rt, alloc)?
}

/// What is shown of a program's blocks, packed by workers.
///
/// # Errors
///
/// Where memory ran out.
pub fn shown_by_workers<H: AllocGlobal + Threads + Wait + Sync>(
    rt: &H,
    program: Program,
    showing: Showing,
) -> Result<Vec<Shown>, AllocError>
    requires { showing.packing.turns ≡ false }
    ensures { IfOk result (λ shown. AreShown showing program shown.items) }
{
    shown_side_by_side(rt, rt.alloc(), program.into_blocks(), showing)
}
