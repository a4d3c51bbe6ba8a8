//! What is promised of the loops of a text (docs/CHECK.md, "The command").

ghost use Rattle.std.specs.Prelude.{◌≡◌, ◌++◌, map, option_map, option_and_then, Some, None, IfOk, IfErr, IfSome};
ghost use Rattle.c62_command.specs.declared.promise.PromiseError.TheVariants.{Memory};
ghost use Rattle.c62_command.specs.Settings.{parts};
ghost use Rattle.c62_command.specs.Promises.{AddsTrips, IsTripsError, all_trips, apart_in, count_in, count_of, trips_in, trips_of};

use crate::setting::{equals_sign, first_part};
use c62_op::Reg;
use c62_token::number::{number, register};
use std::alloc::{AllocError, Global};

/// The loop of a label is entered with at least so many trips.
#[derive(Debug, Drop)]
pub struct Trips {
    pub label: Vec<u8>,
    /// From 1 to below 2^32.
    pub least: u32,
}

/// What is promised of loops.
#[derive(Debug, Drop)]
pub struct Promises {
    pub trips: Vec<Trips>,
    /// Registers of which loads and stores from any two never touch one byte in two iterations.
    pub apart: Vec<Reg>,
}

/// The promise that says nothing.
#[derive(Clone, Copy, PartialEq, Eq, Debug)]
pub enum BadPromise {
    /// The `--trips` of this number, from 1.
    Trips(usize),
    /// `--apart`.
    Apart,
}

/// Why words are no promises.
#[derive(Debug, Drop)]
pub enum PromiseError {
    Memory,
    Bad(BadPromise),
}

impl From<AllocError> for PromiseError {
    ghost from_gives = { λ _ error. error ≡ Memory };

    fn from(_error: AllocError) -> PromiseError {
        PromiseError::Memory
    }
}

/// The number as one of trips, where there may be so many.
fn count_of(number: i64) -> Option<u32>
    ensures { result ≡ count_of number }
{
    if 1 <= number && number <= 4_294_967_295 {
        Some(number as u32)
    } else {
        None
    }
}

/// The number of trips that a text says.
fn count_in(text: &[u8]) -> Option<u32>
    ensures { result ≡ count_in text.now }
{
    count_of(number(text)?)
}

/// The trips that a word says: `L=N`.
#[tactic(auto, unfolding(crate::specs::Promises::trips_in))]
fn trips_in(alloc: Global, text: &[u8]) -> Result<Option<Trips>, AllocError>
    ensures { IfOk result (λ trips. option_map trips_of trips ≡ trips_in text.now) }
{
    let Some(equals) = equals_sign(text) else {
        return Ok(None);
    };
    let Some(least) = count_in(&text[equals + 1..]) else {
        return Ok(None);
    };
    let label = Vec::from_slice(alloc, &text[..equals])?;
    Ok(Some(Trips { label, least }))
}

/// Adds the trips that a word says. Answers whether it says some.
fn push_trips(alloc: Global, all: &mut Vec<Trips>, text: &[u8]) -> Result<bool, AllocError>
    ensures { IfOk result (AddsTrips (trips_in text.now) (map trips_of all.old.items) (map trips_of all.new.items)) }
{
    match trips_in(alloc, text)? {
        Some(trips) => {
            all.push(trips)?;
            Ok(true)
        }
        None => Ok(false),
    }
}

/// The trips that words say, in their order (docs/CHECK.md, "The command").
///
/// # Errors
///
/// `Bad` with the number of the first word that says none, and `Memory` where memory ran out.
pub fn read_trips(alloc: Global, texts: &[&str]) -> Result<Vec<Trips>, PromiseError>
    ensures ok { IfOk result (λ trips. all_trips (map (λ text. text.now) texts.now) ≡ Some (map trips_of trips.items)) }
    ensures err { IfErr result (IsTripsError (map (λ text. text.now) texts.now)) }
{
    let mut all = Vec::new(alloc);
    let mut number = 0;
    for text in texts {
        number += 1;
        if !push_trips(alloc, &mut all, text.as_bytes())? {
            return Err(PromiseError::Bad(BadPromise::Trips(number)));
        }
    }
    Ok(all)
}

/// The registers that a text names between its commas, where each is one.
///
/// # Errors
///
/// `AllocError` where memory ran out.
pub(crate) fn apart_in(alloc: Global, text: &[u8]) -> Result<Option<Vec<Reg>>, AllocError>
    ensures { IfOk result (λ regs. option_map (λ regs. regs.items) regs ≡ apart_in text.now) }
{
    let mut regs = Vec::new(alloc);
    let mut rest = text;
    loop {
        let (part, behind) = first_part(rest);
        let Some(reg) = register(part) else {
            return Ok(None);
        };
        regs.push(reg)?;
        let Some(behind) = behind else {
            return Ok(Some(regs));
        };
        rest = behind;
    }
}
