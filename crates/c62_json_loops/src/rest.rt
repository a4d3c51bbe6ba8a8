//! A block that belongs to no loop, as an object.

ghost use Rattle.std.specs.Prelude.{◌≡◌};
ghost use Rattle.c62_json.specs.Document.{Adds};
ghost use Rattle.c62_check_rest.specs.Lines.{fault_words};
ghost use Rattle.c62_json_loops.specs.Rest.{rest_object};

use c62_check_rest::RestVerdict;
use c62_json_check::{push_told, push_verdict};
use c62_packet::BlockFault;
use json::Writer;
use std::alloc::{AllocError, Global};

/// What keeps packets from being a block.
fn fault_word(fault: BlockFault) -> &'static str
    ensures { result.now ≡ fault_words fault }
{
    match fault {
        BlockFault::TwoBranches => "branches",
        BlockFault::NotDrained => "undrained",
        BlockFault::Unlawful(_, _) => "clash",
    }
}

/// Writes the object of what is told of the block of this number.
///
/// # Errors
///
/// `AllocError` where memory ran out.
#[tactic(auto, unfolding(crate::specs::Rest::rest_object))]
pub fn push_rest(
    alloc: Global,
    out: &mut Writer,
    block: u64,
    verdict: &RestVerdict,
) -> Result<(), AllocError>
    ensures { Adds result out.old out.new (rest_object block verdict.now) }
{
    match verdict {
        RestVerdict::Checked(verdict) => push_verdict(alloc, out, block, verdict),
        RestVerdict::Faulty(fault) => push_told(alloc, out, block, fault_word(*fault), None, &[]),
        RestVerdict::Undrained => push_told(alloc, out, block, "undrained", None, &[]),
        RestVerdict::Unchecked => push_told(alloc, out, block, "unchecked", None, &[]),
    }
}
