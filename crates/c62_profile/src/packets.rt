//! Packets that are run and counted.

ghost use Rattle.std.specs.Prelude.{◌≡◌, ◌++◌, ◌<◌, IfOk, OnOk, IsTrue, length};
ghost use Rattle.c62_packet.specs.Packets.{is_closed};
ghost use Rattle.c62_pipe.specs.Chain.{RunsPackets};
ghost use Rattle.c62_profile.specs.Visits.{CountsPackets};
ghost use Rattle.c62_profile.specs.Table.{packet_row, packet_table};

use crate::table::{Row, push_row};
use crate::tally::Tally;
use c62_packet::{PacketBlock, Packets};
use c62_pipe::Pipe;
use c62_serial::{Chain, End, Exit, State};
use std::alloc::{AllocError, Global};

/// Runs packet blocks from the first one on, and at most so many, and counts them. Answers the chain and the count.
fn count_packets(
    alloc: Global,
    packets: &Packets,
    state: &mut State,
    limit: u32,
) -> Result<(Chain, Tally), AllocError>
    requires closed { IsTrue (is_closed packets.now) }
    ensures { IfOk result (λ ran. CountsPackets packets.now state.old.machine limit ran.0 state.new.machine ran.1) }
{
    let all = packets.blocks();
    let mut tally = Tally::new(alloc, all.len())?;
    let mut number = 0;
    while number < all.len() {
        if tally.blocks == limit {
            return Ok((tally.ended(End::Limit), tally));
        }
        let (exit, _) = Pipe::run(&all[number], state)?;
        tally.add(number, all[number].length());
        number = match exit {
            Exit::Next => number + 1,
            Exit::Block(target) => usize::from(target),
            Exit::Register(value) => return Ok((tally.ended(End::Register(value)), tally)),
        };
    }
    Ok((tally.ended(End::End), tally))
}

/// Runs packet blocks as [`run_chain`](c62_pipe::run_chain) does, and counts how often each is run. Answers the chain, and the
/// count with the cycles that its blocks took together.
///
/// # Errors
///
/// `AllocError` where memory ran out.
pub fn run_packets(
    alloc: Global,
    packets: &Packets,
    state: &mut State,
    limit: u32,
) -> Result<(Chain, Tally), AllocError>
    requires closed { IsTrue (is_closed packets.now) }
    ensures counts { IfOk result (λ ran. CountsPackets packets.now state.old.machine limit ran.0 state.new.machine ran.1) }
    ensures runs { IfOk result (λ ran. RunsPackets packets.now state.old.machine limit ran.0 ran.1.taken state.new.machine) }
    ensures each { IfOk result (λ ran. length ran.1.visits.items ≡ length packets.now) }
{
    let (chain, tally) = count_packets(alloc, packets, state, limit)?;
    Ok((chain, tally))
}

/// Adds the row of a packet block.
fn push_block(
    out: &mut Vec<u8>,
    packets: &[PacketBlock],
    number: usize,
    tally: &Tally,
) -> Result<(), AllocError>
    requires inside { number < length packets.now }
    requires counted { number < length tally.now.visits.items }
    ensures { OnOk result (out.new.items ≡ out.old.items ++ packet_row packets.now tally.now number) }
{
    let block = &packets[number];
    let row = Row {
        number,
        label: block.label(),
        runs: tally.visits[number],
        each: block.length(),
    };
    push_row(out, &row, tally.taken)
}

/// Adds the table of a run of packets (docs/REPORT.md, "The profile").
///
/// # Errors
///
/// `AllocError` where memory ran out.
#[tactic(auto, unfolding(crate::specs::Table::packet_table))]
pub fn packet_table(out: &mut Vec<u8>, packets: &Packets, tally: &Tally) -> Result<(), AllocError>
    requires { length tally.now.visits.items ≡ length packets.now }
    ensures { OnOk result (out.new.items ≡ out.old.items ++ packet_table packets.now tally.now) }
{
    let all = packets.blocks();
    out.extend_from_slice(b"block runs cycles sum share\n")?;
    for number in 0..all.len() {
        push_block(out, all, number, tally)?;
    }
    Ok(())
}
