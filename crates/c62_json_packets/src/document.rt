//! The document of packets.

ghost use Rattle.std.specs.Prelude.{◌≡◌, IfOk};
ghost use Rattle.c62_json.specs.Document.{document};
ghost use Rattle.c62_json_packets.specs.Packets.{blocks_member};

use crate::block::push_blocks;
use c62_json::{begin, end};
use c62_packet::Packets;
use std::alloc::{AllocError, Global};

/// The document of a command that answers packets, as `pack` does.
///
/// # Errors
///
/// `AllocError` where memory ran out.
pub fn packets_document(
    alloc: Global,
    command: &str,
    packets: &Packets,
) -> Result<Vec<u8>, AllocError>
    ensures { IfOk result (λ text. text.items ≡ document command.now (blocks_member packets.now)) }
{
    let mut out = begin(alloc, command)?;
    push_blocks(alloc, &mut out, packets)?;
    end(out)
}
