//! A run of packet blocks, one after the other.

ghost use Rattle.std.specs.Prelude.{◌≡◌, IfOk, IsTrue};
ghost use Rattle.c62_packet.specs.Packets.{is_closed};
ghost use Rattle.c62_faulted_packets.specs.Chain.{FindsPacketFaults};

use crate::block::run_noting;
use c62_faulted::Fault;
use c62_packet::Packets;
use c62_serial::{Exit, State};
use std::alloc::{AllocError, Global};

/// The first fault of each line of packets that has one, where they are run from this state for so many blocks at most, in the
/// order in which they come (docs/REPORT.md, "Accesses that fault"). The lines are those of the text that the packets are of.
///
/// # Errors
///
/// `AllocError` where memory ran out.
pub fn faults_of_packets(
    alloc: Global,
    packets: &Packets,
    state: &mut State,
    limit: u32,
) -> Result<Vec<Fault>, AllocError>
    requires closed { IsTrue (is_closed packets.now) }
    ensures { IfOk result (λ faults. FindsPacketFaults packets.now state.old.machine limit faults.items) }
{
    let all = packets.blocks();
    let mut faults = Vec::new(alloc);
    let mut number = 0;
    let mut blocks = 0;
    while number < all.len() && blocks < limit {
        let exit = run_noting(&all[number], state, &mut faults)?;
        blocks += 1;
        number = match exit {
            Exit::Next => number + 1,
            Exit::Block(target) => usize::from(target),
            Exit::Register(_) => return Ok(faults),
        };
    }
    Ok(faults)
}
