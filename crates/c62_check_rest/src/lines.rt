//! The lines of a block that belongs to no loop (docs/CHECK.md, "Other blocks").

ghost use Rattle.std.specs.Prelude.{◌≡◌, ◌++◌, OnOk};
ghost use Rattle.c62_check_rest.specs.Lines.{fault_words, rest_lines};

use crate::verdict::RestVerdict;
use c62_check::{push_verdict, push_words};
use c62_packet::BlockFault;
use std::alloc::AllocError;

/// What keeps packets from being a block.
fn fault_words(fault: BlockFault) -> &'static [u8]
    ensures { result.now ≡ fault_words fault }
{
    match fault {
        BlockFault::TwoBranches => b"branches",
        BlockFault::NotDrained => b"undrained",
        BlockFault::Unlawful(_, _) => b"clash",
    }
}

/// Adds what is told of the block of this number: a line, or one for each instruction that comes too early.
///
/// # Errors
///
/// `AllocError` where memory ran out; the bytes are then unspecified.
pub fn push_rest(out: &mut Vec<u8>, number: u64, verdict: &RestVerdict) -> Result<(), AllocError>
    ensures { OnOk result (out.new.items ≡ out.old.items ++ rest_lines number verdict.now) }
{
    match verdict {
        RestVerdict::Checked(verdict) => push_verdict(out, number, verdict),
        RestVerdict::Faulty(fault) => push_words(out, number, fault_words(*fault)),
        RestVerdict::Undrained => push_words(out, number, b"undrained"),
        RestVerdict::Unchecked => push_words(out, number, b"unchecked"),
    }
}
