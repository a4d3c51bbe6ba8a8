//! Looks for a circle of dependences that asks for more cycles than there are.

ghost use Rattle.std.specs.Prelude.{All, Contains, IfOk, IfSome};

use crate::dependence::Dependence;
use std::alloc::{AllocError, Global};

/// The greatest sums of latencies to each instruction that were found so far, and the number of the dependence by which each grew last.
#[derive(Drop)]
struct Sums {
    sums: Vec<i64>,
    last: Vec<usize>,
}

/// What a latency comes to within an iteration, where passes are so far apart.
fn within(one: &Dependence, interval: u16) -> i64 {
    i64::from(one.latency) - i64::from(interval) * i64::from(one.apart)
}

impl Sums {
    fn new(alloc: Global, count: usize) -> Result<Sums, AllocError> {
        Ok(Sums {
            sums: vec![in alloc; 0; count]?,
            last: vec![in alloc; 0; count]?,
        })
    }

    fn sum_at(&self, number: u16) -> i64 {
        self.sums.get(usize::from(number)).copied().unwrap_or(0)
    }

    /// Lengthens a sum by a dependence, where it grows so. Answers whether it does.
    fn lengthen(&mut self, index: usize, one: &Dependence, interval: u16) -> bool {
        let sum = self.sum_at(one.from).saturating_add(within(one, interval));
        if sum <= self.sum_at(one.to) {
            return false;
        }
        if let Some(old) = self.sums.get_mut(usize::from(one.to)) {
            *old = sum;
        }
        if let Some(last) = self.last.get_mut(usize::from(one.to)) {
            *last = index;
        }
        true
    }

    /// Lengthens each sum by one dependence. Answers the number of one that grew, if any did.
    fn lengthen_all(&mut self, dependences: &[Dependence], interval: u16) -> Option<u16> {
        let mut grown = None;
        for index in 0..dependences.len() {
            if let Some(one) = dependences.get(index)
                && self.lengthen(index, one, interval)
            {
                grown = Some(one.to);
            }
        }
        grown
    }

    /// The dependence by which the sum of a number grew last.
    fn last_of(&self, dependences: &[Dependence], number: u16) -> Option<Dependence>
        ensures { IfSome result (Contains dependences.now) }
    {
        let index = self.last.get(usize::from(number))?;
        dependences.get(*index).copied()
    }

    /// The number from which as many dependences as there are instructions led to this one. It lies on a circle, if any does.
    fn begin_of(&self, dependences: &[Dependence], number: u16) -> u16 {
        let mut at = number;
        for _ in 0..self.last.len() {
            if let Some(one) = self.last_of(dependences, at) {
                at = one.from;
            }
        }
        at
    }

    /// The dependences that led to a number, back to that number, the last one first.
    fn circle(
        &self,
        alloc: Global,
        dependences: &[Dependence],
        number: u16,
    ) -> Result<Vec<Dependence>, AllocError>
        ensures { IfOk result (λ circle. All (Contains dependences.now) circle.items) }
    {
        let mut circle = Vec::new(alloc);
        let mut at = number;
        for _ in 0..self.last.len() {
            let Some(one) = self.last_of(dependences, at) else {
                return Ok(circle);
            };
            circle.push(one)?;
            at = one.from;
            if at == number {
                return Ok(circle);
            }
        }
        Ok(circle)
    }
}

/// Some of the dependences of so many instructions: a circle that asks for more than so many cycles, if there is one.
///
/// # Errors
///
/// `AllocError` where memory ran out.
pub(crate) fn circle_above(
    alloc: Global,
    dependences: &[Dependence],
    count: usize,
    interval: u16,
) -> Result<Vec<Dependence>, AllocError>
    ensures { IfOk result (λ circle. All (Contains dependences.now) circle.items) }
{
    let mut sums = Sums::new(alloc, count)?;
    let mut grown = sums.lengthen_all(dependences, interval);
    for _ in 0..count {
        if grown.is_none() {
            return Ok(Vec::new(alloc));
        }
        grown = sums.lengthen_all(dependences, interval);
    }
    match grown {
        Some(number) => {
            let begin = sums.begin_of(dependences, number);
            sums.circle(alloc, dependences, begin)
        }
        None => Ok(Vec::new(alloc)),
    }
}
