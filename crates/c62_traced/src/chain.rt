//! Packet blocks, one after the other, whose events are told.

ghost use Rattle.std.specs.Prelude.{IfOk, IsTrue, List};
ghost use Rattle.c62_packet.specs.Packets.{is_closed};
ghost use Rattle.c62_pipe.specs.Chain.{RunsPackets};
ghost use Rattle.c62_trace.specs.Event.{Entry};
ghost use Rattle.c62_traced.specs.Chain.{IsChainLog};

use crate::block::run_told;
use c62_packet::Packets;
use c62_serial::{Chain, End, Exit, State};
use c62_trace::Watch;
use std::alloc::AllocError;

/// Runs packet blocks as [`run_chain_traced`] does.
fn trace_chain<T: Watch>(
    packets: &Packets,
    limit: u32,
    state: &mut State,
    watch: &mut T,
) -> Result<(Chain, u64), AllocError>
    requires closed { IsTrue (is_closed packets.now) }
    ensures { IfOk result (λ ran. (log : List Entry) × IsChainLog packets.now state.old.machine limit ran.0 ran.1 state.new.machine log
        × T.tells watch.old watch.new log) }
{
    let all = packets.blocks();
    let mut number = 0;
    let mut blocks = 0;
    let mut cycles = 0;
    while number < all.len() {
        if blocks == limit {
            let chain = Chain {
                blocks,
                stop: End::Limit,
            };
            return Ok((chain, cycles));
        }
        let block = &all[number];
        let exit = run_told(block, cycles, state, watch)?;
        blocks += 1;
        cycles += u64::from(block.length());
        number = match exit {
            Exit::Next => number + 1,
            Exit::Block(target) => usize::from(target),
            Exit::Register(value) => {
                let chain = Chain {
                    blocks,
                    stop: End::Register(value),
                };
                return Ok((chain, cycles));
            }
        };
    }
    let chain = Chain {
        blocks,
        stop: End::End,
    };
    Ok((chain, cycles))
}

/// Runs packet blocks as [`run_chain`](c62_pipe::run_chain) does, and tells of their events as they run. Answers the chain, and how
/// many cycles its blocks took together.
///
/// # Errors
///
/// `AllocError` where memory ran out.
pub fn run_chain_traced<T: Watch>(
    packets: &Packets,
    limit: u32,
    state: &mut State,
    watch: &mut T,
) -> Result<(Chain, u64), AllocError>
    requires closed { IsTrue (is_closed packets.now) }
    ensures runs { IfOk result (λ ran. RunsPackets packets.now state.old.machine limit ran.0 ran.1 state.new.machine) }
    ensures told { IfOk result (λ ran. (log : List Entry) × IsChainLog packets.now state.old.machine limit ran.0 ran.1 state.new.machine log
        × T.tells watch.old watch.new log) }
{
    let ran = trace_chain(packets, limit, state, watch)?;
    Ok(ran)
}
