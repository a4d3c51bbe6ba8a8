//! Which packets stand for which block.

ghost use Rattle.std.specs.Prelude.{◌≡◌, ℕ, IfOk, IfSome, Some, None, map, slice_get};
ghost use Rattle.c62_loop.specs.Loop.{Region as Counted};
ghost use Rattle.c62_loop_match.specs.declared.promise.Promise.{Promise as OfAccesses};
ghost use Rattle.c62_loop_match.specs.Parts.{region_of as region_read};
ghost use Rattle.c62_loop_match.specs.Promise.{promises};
ghost use Rattle.c62_modulo.specs.Made.{IsMade};
ghost use Rattle.c62_check_loop.specs.Region.{last_of};
ghost use Rattle.c62_check_loops.specs.Constant.{constant_at};
ghost use Rattle.c62_pipeline.specs.Chosen.{IsChosen, IsCountedAs, IsFound, IsFromTrips, IsReason, UsesCounter, given_up, loop_alone, target_of};
ghost use Rattle.c62_pipeline.specs.Limit.{IsLimitOf};
ghost use Rattle.c62_command.specs.Promises.{trips_of};

use crate::limit::{Limit, limit_of};
use crate::meeting::{Meeting, all_apart, meeting_in};
use c62_check_loop::counter_of;
use c62_check_loops::{constant_at, is_enough, promise_of};
use c62_command::{Promises, Trips};
use c62_insn::{Operands, Reg};
use c62_line::Label;
use c62_loop_match::{Pipelined, Promise, Region, counts, is_counted_loop};
use c62_modulo::{Made, Shortness, Terms, pipelined};
use c62_packet::PacketBlock;
use c62_read::{Block, SerialInsn};
use std::alloc::{AllocError, Global};

/// No packets of a loop need more trips.
const MOST_TRIPS: u32 = 256;

/// What became of a loop.
#[derive(Clone, Copy, PartialEq, Eq, Debug)]
pub enum Kept {
    /// It has packets of its own.
    Pipelined {
        /// The cycles of a trip.
        cycles: u16,
        /// How many trips it has to be entered with at least.
        stages: u16,
        /// Whether any packets of it can have a shorter trip.
        shortness: Shortness,
    },
    /// It has so many blocks, and their packets.
    Several(u16),
    /// It has the packets of its block: nothing counts its trips,
    NoCounter,
    /// or the instruction of this line does more with this counter than to lower or test it,
    Used(u32, Reg),
    /// or none of them are sure,
    NoTrips,
    /// or those that take fewer cycles a trip need the accesses of these two lines apart, which isn't promised,
    MayMeet(u32, u32),
    /// or those need so many trips, and fewer are sure,
    TooFew(u16),
    /// or none are found that take fewer cycles a trip within the trips that are sure,
    NotShorter,
    /// or those found aren't told to do the same.
    NotChecked,
}

/// What is found for a block that is a loop.
#[derive(Drop)]
pub struct Choice {
    /// The number of the block.
    pub number: u8,
    /// Its packets, where they are its own.
    pub made: Option<Made>,
    /// What became of it.
    pub kept: Kept,
    /// Where none is found that is shorter, what keeps a trip from being so.
    pub limit: Option<Limit>,
}

impl Choice {
    fn without(number: u8, kept: Kept) -> Choice
        ensures number { result.number ≡ number }
        ensures made { result.made ≡ None }
        ensures kept { result.kept ≡ kept }
        ensures limit { result.limit ≡ None }
    {
        Choice {
            number,
            made: None,
            kept,
            limit: None,
        }
    }

    fn with(number: u8, made: Made) -> Choice
        ensures { (promise : OfAccesses) (region : Counted) (trips longest : ℕ) → region.number ≡ number
            → IsMade (promises promise) region trips longest made → IsFound promise region result }
    {
        let shortness = made.shortness();
        Choice {
            number,
            kept: Kept::Pipelined {
                cycles: made.interval,
                stages: u16::from(made.most) + 1,
                shortness,
            },
            made: Some(made),
            limit: None,
        }
    }

    /// Whether the loop has packets of its own.
    pub(crate) fn is_pipelined(&self) -> bool {
        self.made.is_some()
    }

    /// Gives up the packets that the loop has, as they aren't told to do the same.
    pub(crate) fn give_up(&mut self)
        ensures { self.new ≡ given_up self.old }
    {
        if self.made.is_some() {
            *self = Choice::without(self.number, Kept::NotChecked);
        }
    }

    /// The packets that the loop has in place of its block's.
    pub(crate) fn packets(&self) -> Option<&Pipelined> {
        match &self.made {
            Some(made) => Some(&made.pipelined),
            None => None,
        }
    }
}

/// The most trips that are promised of the loop of a label, or 0.
fn most_trips(trips: &[Trips], label: &Label) -> u32 {
    let mut most = 0;
    for each in trips {
        if each.label.as_slice() == label.as_bytes() {
            most = most.max(each.least);
        }
    }
    most
}

/// The most trips that are sure of the loop of a label: as many as the text sets its counter to, and else as are promised.
fn trips_sure(trips: &[Trips], label: &Label, constant: Option<u32>) -> u32 {
    match constant {
        Some(made) => made,
        None => most_trips(trips, label),
    }
}

/// The number of the block to which the last of these branches.
fn target_of(insns: &[SerialInsn]) -> Option<u8>
    ensures { result ≡ target_of (last_of insns.now) }
{
    match insns.last() {
        Some(last) => match last.insn.operands() {
            Operands::Block(target) => Some(target),
            _ => None,
        },
        None => None,
    }
}

/// A loop without the instructions around it.
fn region_of(alloc: Global, block: &Block, number: u8, counter: Reg) -> Result<Region, AllocError>
    ensures { IfOk result (λ region. region_read region ≡ loop_alone number block.now counter) }
{
    Ok(Region {
        before: Vec::new(alloc),
        body: Vec::from_slice(alloc, block.insns())?,
        behind: Vec::new(alloc),
        counter,
        number,
    })
}

/// Whether packets are found of a loop where all its accesses are apart.
fn is_found_apart(alloc: Global, region: &Region, terms: Terms) -> Result<bool, AllocError> {
    let promise = all_apart(&region.body);
    Ok(pipelined(alloc, region, Terms { promise, ..terms })?.is_some())
}

/// How many trips packets of a loop need, where they are found.
fn trips_needed(alloc: Global, region: &Region, terms: Terms) -> Result<Option<u16>, AllocError>
    ensures { IfOk result (λ needed. IfSome needed (IsFromTrips terms.promise (region_read region.now))) }
{
    match pipelined(alloc, region, terms)? {
        Some(made) => Ok(Some(u16::from(made.most) + 1)),
        None => Ok(None),
    }
}

/// Why no packets are found of a loop: too few trips, or two accesses that may meet, if it lies at these.
fn reason_of(alloc: Global, region: &Region, terms: Terms) -> Result<Kept, AllocError>
    ensures { IfOk result (IsReason terms.promise (region_read region.now)) }
{
    if terms.trips < MOST_TRIPS
        && let Some(needed) = trips_needed(
            alloc,
            region,
            Terms {
                trips: MOST_TRIPS,
                ..terms
            },
        )?
    {
        return Ok(Kept::TooFew(needed));
    }
    match meeting_in(terms.promise, &region.body) {
        Some(Meeting { first, second }) if is_found_apart(alloc, region, terms)? => {
            Ok(Kept::MayMeet(first, second))
        }
        _ => Ok(Kept::NotShorter),
    }
}

/// What keeps a trip of a loop from being shorter, where that is why no packets are found.
fn limit_told(
    alloc: Global,
    region: &Region,
    promise: Promise,
    kept: Kept,
) -> Result<Option<Limit>, AllocError>
    ensures { IfOk result (λ limit. IfSome limit (IsLimitOf promise (region_read region.now))) }
{
    match kept {
        Kept::NotShorter => limit_of(alloc, region, promise),
        _ => Ok(None),
    }
}

/// A loop of which no packets are found, and why.
fn unfound(alloc: Global, region: &Region, terms: Terms) -> Result<Choice, AllocError>
    ensures { IfOk result (IsFound terms.promise (region_read region.now)) }
{
    let kept = reason_of(alloc, region, terms)?;
    let limit = limit_told(alloc, region, terms.promise, kept)?;
    Ok(Choice {
        number: region.number,
        made: None,
        kept,
        limit,
    })
}

/// What is found for a loop of which so many trips are sure, and whose block takes so many cycles.
fn found(alloc: Global, region: &Region, terms: Terms) -> Result<Choice, AllocError>
    ensures { IfOk result (IsFound terms.promise (region_read region.now)) }
{
    match pipelined(alloc, region, terms)? {
        Some(made) => Ok(Choice::with(region.number, made)),
        None => unfound(alloc, region, terms),
    }
}

/// What is found for a loop under a counter, which the text sets to this constant or to none, and whose block's own packets take so many cycles.
fn counted(
    alloc: Global,
    label: &Label,
    constant: Option<u32>,
    region: &Region,
    longest: u16,
    promises: &Promises,
) -> Result<Choice, AllocError>
    ensures { IfOk result (IsCountedAs (map trips_of promises.now.trips.items) promises.now.apart.items (Some label.now) constant (region_read region.now)) }
{
    let promise = promise_of(&promises.apart);
    if !is_enough(&promises.trips, label.as_bytes(), constant, 1) {
        return Ok(Choice::without(region.number, Kept::NoTrips));
    }
    let terms = Terms {
        promise,
        trips: trips_sure(&promises.trips, label, constant),
        longest: longest.saturating_sub(1),
    };
    found(alloc, region, terms)
}

/// The line of the first of these that does more with the counter than to lower or test it.
fn used_in(entries: &[SerialInsn], number: u8, counter: Reg) -> Option<u32>
    ensures { IfSome result (UsesCounter counter number entries.now) }
{
    for place in 0..entries.len() {
        let entry = entries[place];
        if !counts(counter, number, &entry) {
            return Some(entry.line);
        }
    }
    None
}

/// What is found for a block that is a loop: that with this number, and this label.
fn loop_choice(
    alloc: Global,
    blocks: &[Block],
    block: &Block,
    number: u8,
    longest: u16,
    promises: &Promises,
) -> Result<Choice, AllocError>
    requires { slice_get blocks.now number ≡ Some block.now }
    ensures { IfOk result (IsChosen (map trips_of promises.now.trips.items) promises.now.apart.items blocks.now) }
{
    let (Some(counter), Some(label)) = (counter_of(blocks, usize::from(number)), block.label())
    else {
        return Ok(Choice::without(number, Kept::NoCounter));
    };
    let region = region_of(alloc, block, number, counter)?;
    if is_counted_loop(&region) {
        let constant = constant_at(blocks, number);
        return counted(alloc, label, constant, &region, longest, promises);
    }
    match used_in(block.insns(), number, counter) {
        Some(line) => Ok(Choice::without(number, Kept::Used(line, counter))),
        None => Ok(Choice::without(number, Kept::NoCounter)),
    }
}

/// What is found for the block of this number, whose own packets take so many cycles. `None` where it is no loop.
///
/// # Errors
///
/// `AllocError` where memory ran out.
pub(crate) fn choice_of(
    alloc: Global,
    blocks: &[Block],
    number: u8,
    own: &PacketBlock,
    promises: &Promises,
) -> Result<Option<Choice>, AllocError>
    ensures { IfOk result (λ choice. IfSome choice (IsChosen (map trips_of promises.now.trips.items) promises.now.apart.items blocks.now)) }
{
    let Some(block) = blocks.get(usize::from(number)) else {
        return Ok(None);
    };
    match target_of(block.insns()) {
        Some(target) if target == number => Ok(Some(loop_choice(
            alloc,
            blocks,
            block,
            number,
            own.length(),
            promises,
        )?)),
        Some(target) if target < number => Ok(Some(Choice::without(
            target,
            Kept::Several(u16::from(number - target) + 1),
        ))),
        _ => Ok(None),
    }
}
