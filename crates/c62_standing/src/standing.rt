//! What is shown of packets as they stand.

ghost use Rattle.std.specs.Prelude.{◌≡◌, IfOk};
ghost use Rattle.std.specs.List.{AllZip};
ghost use Rattle.c62_unpack.specs.Unpacked.{IsUnpacked};
ghost use Rattle.c62_standing.specs.Standing.{IsStanding};

use c62_packet::{PacketBlock, Packets};
use c62_show::{Shown, limits_of, lives_told};
use c62_unpack::{Unpacked, copied, unpack};
use c62_why::{critical_lines, whys_told};
use std::alloc::{AllocError, Global};

/// What is told of packets beside their picture.
#[derive(Clone, Copy, PartialEq, Eq, Debug)]
pub struct Details {
    /// Why each instruction isn't issued a cycle earlier.
    pub why: bool,
    /// Which registers are live, and which are free.
    pub registers: bool,
}

/// An equal block of packets.
fn copy_of(alloc: Global, packets: &PacketBlock) -> Result<PacketBlock, AllocError>
    ensures { IfOk result (λ copy. copy ≡ packets.now) }
{
    let placed = Vec::from_slice(alloc, packets.placed())?;
    Ok(PacketBlock::of_lawful(copied(packets.label()), placed))
}

/// What is shown of packets of which the serial block is known.
fn shown_of(
    alloc: Global,
    packets: PacketBlock,
    one: &Unpacked,
    details: Details,
) -> Result<Shown, AllocError>
    requires { IsUnpacked packets one.now.plan one.now.placed.items }
    ensures { IfOk result (IsStanding details packets) }
{
    let _all = one.plan.len();
    let cycles = packets.length();
    let whys = whys_told(alloc, &one.plan, cycles, &one.placed, details.why)?;
    let critical = critical_lines(alloc, &one.plan, cycles, &one.placed)?;
    let limits = limits_of(alloc, &one.plan)?;
    let lives = lives_told(alloc, &packets, details.registers)?;
    Ok(Shown {
        limits: Some(limits),
        critical,
        whys,
        lives,
        packets,
    })
}

/// What is shown of packets of which no serial block is known.
fn shown_alone(alloc: Global, packets: PacketBlock, details: Details) -> Result<Shown, AllocError>
    ensures { IfOk result (IsStanding details packets) }
{
    Ok(Shown {
        limits: None,
        critical: Vec::new(alloc),
        whys: Vec::new(alloc),
        lives: lives_told(alloc, &packets, details.registers)?,
        packets,
    })
}

/// What is shown of a block of packets.
fn shown_block(alloc: Global, packets: &PacketBlock, details: Details) -> Result<Shown, AllocError>
    ensures { IfOk result (IsStanding details packets.now) }
{
    let copy = copy_of(alloc, packets)?;
    match unpack(alloc, packets)? {
        Some(one) => shown_of(alloc, copy, &one, details),
        None => shown_alone(alloc, copy, details),
    }
}

/// What is shown of packets as they stand, block by block.
///
/// # Errors
///
/// Where memory ran out.
pub fn shown_as_they_stand(
    alloc: Global,
    packets: &Packets,
    details: Details,
) -> Result<Vec<Shown>, AllocError>
    ensures { IfOk result (λ shown. AllZip (IsStanding details) packets.now shown.items) }
{
    let mut shown = Vec::new(alloc);
    for block in packets.blocks() {
        shown.push(shown_block(alloc, block, details)?)?;
    }
    Ok(shown)
}
