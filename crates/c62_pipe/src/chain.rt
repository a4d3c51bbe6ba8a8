//! Packet blocks run as a chain.

ghost use Rattle.std.specs.Prelude.{IsTrue, IfOk, OnErr};
ghost use Rattle.c62_packet.specs.Packets.{is_closed};
ghost use Rattle.c62_pipe.specs.Chain.{RunsPackets, LacksRoom};

use crate::pipe::Pipe;
use c62_packet::Packets;
use c62_serial::{Chain, End, Exit, State};
use std::alloc::AllocError;

/// Runs packet blocks from the first one on, and at most so many. After a block it goes on with the
/// next one or with the branch's; a branch to a register, or going on past the last block, ends it.
/// The limit is looked at before each block, the first too. Answers the chain, and how many cycles its
/// blocks took together. It asks that every branch to a block goes to one that is there and labelled.
///
/// Before each block the state makes room for a fault of each of its instructions, by its own
/// allocator.
///
/// # Errors
///
/// `AllocError` where that room was missing and memory runs out. The state is then that at the start
/// of a block of the chain, after fewer blocks than the limit.
pub fn run_chain(
    packets: &Packets,
    state: &mut State,
    limit: u32,
) -> Result<(Chain, u64), AllocError>
    requires closed { IsTrue (is_closed packets.now) }
    ensures ok { IfOk result (λ ran. RunsPackets packets.now state.old.machine limit ran.0 ran.1 state.new.machine) }
    ensures err { OnErr result (LacksRoom packets.now state.old.machine limit state.new) }
{
    let all = packets.blocks();
    let mut pipe = Pipe::new();
    let mut number = 0;
    let mut blocks = 0;
    let mut cycles = 0;
    while number < all.len() {
        if blocks == limit {
            let chain = Chain {
                blocks,
                stop: End::Limit,
            };
            return Ok((chain, cycles));
        }
        let (exit, taken) = pipe.run_block(&all[number], state)?;
        blocks += 1;
        cycles += u64::from(taken);
        number = match exit {
            Exit::Next => number + 1,
            Exit::Block(target) => usize::from(target),
            Exit::Register(value) => {
                let chain = Chain {
                    blocks,
                    stop: End::Register(value),
                };
                return Ok((chain, cycles));
            }
        };
    }
    let chain = Chain {
        blocks,
        stop: End::End,
    };
    Ok((chain, cycles))
}
