//! Calls that read and write texts, that plan, and that hold a listing against a text.

ghost use Rattle.std.specs.Prelude.{◌≡◌, None};

use crate::answer::refused;
use crate::given::{block_of, listing_of, packets_in, plan_of, program_of};
use crate::seen::{look_at, look_of};
use crate::twice::{Came, twice};
use c62_check::check;
use c62_depend::Plan;
use c62_listing::list;
use c62_listing_reader::{ListFault, read_listing};
use c62_op::InstructionSet;
use c62_read::{Block, Cause, read_program};
use std::alloc::Global;

/// Reads a text.
pub(crate) fn reads_program(alloc: Global, text: &'static str) -> Option<Came> {
    twice((), |left| {
        match read_program(InstructionSet::Core, alloc, text.as_bytes()) {
            Ok(program) => Some(look_of(&program, left)),
            Err(fault) => refused(matches!(fault.cause, Cause::Memory)),
        }
    })
}

/// Reads the listing of a text's packets.
pub(crate) fn reads_listing(alloc: Global, text: &str) -> Option<Came> {
    let listing = listing_of(alloc, &packets_in(alloc, text)?)?;
    twice((), |_| {
        match read_listing(InstructionSet::Core, alloc, listing.as_bytes()) {
            Ok(packets) => Some(look_at(&packets)),
            Err(ListFault::Read(fault)) => refused(matches!(fault.cause, Cause::Memory)),
            Err(fault) => refused(matches!(fault, ListFault::Memory)),
        }
    })
}

/// Lists a text's packets.
pub(crate) fn lists(alloc: Global, text: &str) -> Option<Came> {
    twice(packets_in(alloc, text)?, |packets| {
        if !packets.closed() {
            return None;
        }
        let listing = list(alloc, packets).ok()?;
        Some(look_of(&listing, packets))
    })
}

/// Plans the block, or puts it back.
fn plan_block(alloc: Global, block: &mut Option<Block>) -> Option<u64>
    ensures { result ≡ None → block.new ≡ block.old }
{
    match Plan::new(alloc, block.take()?) {
        Ok(plan) => Some(look_at(&plan)),
        Err((back, _)) => {
            *block = Some(back);
            None
        }
    }
}

/// Plans a block, which comes back.
pub(crate) fn plans(alloc: Global, text: &str) -> Option<Came> {
    twice(
        Some(block_of(alloc, text)?),
        |block| plan_block(alloc, block),
    )
}

/// Copies a plan.
pub(crate) fn copies(alloc: Global, text: &str) -> Option<Came> {
    twice(plan_of(alloc, text)?, |plan| {
        let copy = plan.copy(alloc).ok()?;
        Some(look_at(&copy))
    })
}

/// Holds the packets of a text against its program.
pub(crate) fn checks(alloc: Global, text: &'static str) -> Option<Came> {
    twice(packets_in(alloc, text)?, |packets| {
        let program = program_of(alloc, text)?;
        let checked = check(alloc, &program, packets).ok()?;
        Some(look_of(&(checked.text.as_slice(), checked.same), packets))
    })
}
