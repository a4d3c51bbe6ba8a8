//! Calls that make packets and lists of them.

ghost use Rattle.std.specs.Prelude.{◌≡◌, None};

use crate::answer::refused;
use crate::given::{packed, whole_board, with_block};
use crate::seen::look_at;
use crate::twice::{Came, twice};
use c62_board::{Board, Spot};
use c62_depend::Plan;
use c62_pack::{AtFault, packets_at, packets_of};
use c62_packet::{PacketBlock, Packets};
use c62_read::MOST_BLOCKS;
use std::alloc::Global;

/// Makes the packets of a board.
pub(crate) fn packs(alloc: Global, text: &str) -> Option<Came> {
    twice(whole_board(alloc, text)?, |board| {
        if !board.complete() {
            return None;
        }
        let block = packets_of(alloc, board).ok()?;
        Some(look_at(&block))
    })
}

/// The spots of a complete board, and a copy of its plan.
fn spots_of(alloc: Global, board: &Board) -> Option<(Plan, Vec<Spot>)> {
    let plan = board.plan().copy(alloc).ok()?;
    let mut spots = Vec::new(alloc);
    for i in 0..board.plan().len() {
        spots.push(board.spot_of(i)?).ok()?;
    }
    Some((plan, spots))
}

/// Makes the packets of a plan at spots.
pub(crate) fn packs_at(alloc: Global, text: &str) -> Option<Came> {
    let board = whole_board(alloc, text)?;
    let (plan, spots) = spots_of(alloc, &board)?;
    twice(plan, |plan| {
        match packets_at(alloc, plan, &spots) {
            Ok(block) => Some(look_at(&block)),
            Err(fault) => refused(matches!(fault, AtFault::Memory)),
        }
    })
}

/// For so many blocks a list takes memory at first.
const FULL: usize = 4;

/// A list of so many times the same block, which needs memory for one more.
fn full_list(alloc: Global, board: &Board) -> Option<Packets> {
    let mut packets = Packets::new(alloc);
    for _ in 0..FULL {
        packets = with_block(packets, packed(alloc, board)?)?;
    }
    Some(packets)
}

/// Appends the block, or puts it back.
fn push_block(packets: &mut Packets, block: &mut Option<PacketBlock>) -> Option<u64>
    ensures list { result ≡ None → packets.new ≡ packets.old }
    ensures back { result ≡ None → block.new ≡ block.old }
{
    if packets.len() >= MOST_BLOCKS {
        return None;
    }
    match packets.push(block.take()?) {
        Ok(()) => Some(look_at(packets)),
        Err((back, _)) => {
            *block = Some(back);
            None
        }
    }
}

/// Appends a block to a list, or the block comes back.
pub(crate) fn pushes(alloc: Global, text: &str) -> Option<Came> {
    let board = whole_board(alloc, text)?;
    let block = packed(alloc, &board)?;
    twice(
        (full_list(alloc, &board)?, Some(block)),
        |given| push_block(&mut given.0, &mut given.1),
    )
}
