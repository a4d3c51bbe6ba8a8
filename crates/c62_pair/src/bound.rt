//! How far two instructions must stand apart by what they use, as numbers.
//!
//! A bound is counted here as one number: 6 more than its cycles, which are -5 or more, and 0 where there is none.

ghost use Rattle.std.specs.Prelude.{◌≡◌, ◌+◌, max};
ghost use Rattle.c62_pair.specs.Numbers.{as_bound, number_if, number_awaited, number_spared, number_after_result, number_after_at_once, number_overwritten, number_after_store, number_after_load, number_before_branch, number_of_registers, number_of_order};

use crate::uses::Uses;

/// The bound that a number stands for, if any.
#[inline(always)]
pub fn as_bound(number: u8) -> Option<i32>
    ensures { result ≡ as_bound number }
{
    if number == 0 {
        None
    } else {
        Some(i32::from(number) - 6)
    }
}

/// The greater of two bounds.
fn greater(a: u8, b: u8) -> u8
    ensures { result ≡ max a b }
{
    a.max(b)
}

/// A bound, where it applies.
fn number_if(applies: bool, number: u8) -> u8
    ensures { result ≡ number_if applies number }
{
    if applies { number } else { 0 }
}

/// Case 1: the second instruction reads what the first one writes, and so comes after the landing.
fn read_after_write(first: &Uses, second: &Uses) -> u8
    ensures { result ≡ number_awaited first.now second.now }
{
    greater(
        number_if(first.results.meets(second.reads), first.delay + 7),
        number_if(first.at_once.meets(second.reads), 7),
    )
}

/// Case 2: the second instruction writes what the first one reads, and lands in its cycle or later.
fn write_after_read(first: &Uses, second: &Uses) -> u8
    ensures { result ≡ number_spared first.now second.now }
{
    greater(
        number_if(first.reads.meets(second.at_once), 6),
        number_if(first.reads.meets(second.results), 6 - second.delay),
    )
}

/// The second instruction writes what the first one writes with its delay.
fn write_after_result(first: &Uses, second: &Uses) -> u8
    ensures { result ≡ number_after_result first.now second.now }
{
    let landed = first.delay + 7;
    greater(
        number_if(first.results.meets(second.at_once), landed),
        number_if(first.results.meets(second.results), landed - second.delay),
    )
}

/// The second instruction writes what the first one writes at once.
fn write_after_at_once(first: &Uses, second: &Uses) -> u8
    ensures { result ≡ number_after_at_once first.now second.now }
{
    greater(
        number_if(first.at_once.meets(second.at_once), 7),
        number_if(first.at_once.meets(second.results), 7 - second.delay),
    )
}

/// Case 3: both write one register, and the second lands later, unless the two are exclusive.
fn write_after_write(exclusive: bool, first: &Uses, second: &Uses) -> u8
    ensures { result ≡ number_overwritten exclusive first.now second.now }
{
    if exclusive {
        0
    } else {
        greater(
            write_after_result(first, second),
            write_after_at_once(first, second),
        )
    }
}

/// Case 4: an access comes after a store, unless the two are disjoint.
fn access_after_store(disjoint: bool, first: &Uses, second: &Uses) -> u8
    ensures { result ≡ number_after_store disjoint first.now.insn second.now.insn }
{
    number_if(
        !disjoint && (first.stores && (second.loads || second.stores)),
        7,
    )
}

/// Case 5: a store comes with a load or after it, unless the two are disjoint.
fn store_after_load(disjoint: bool, first: &Uses, second: &Uses) -> u8
    ensures { result ≡ number_after_load disjoint first.now.insn second.now.insn }
{
    number_if(!disjoint && (first.loads && second.stores), 6)
}

/// Case 6: all has landed when a branch takes effect.
fn before_branch(first: &Uses, second: &Uses) -> u8
    ensures { result ≡ number_before_branch first.now.insn second.now.insn }
{
    number_if(second.branches, first.delay + 1)
}

/// The greatest bound of the cases of registers.
pub fn by_registers(exclusive: bool, first: &Uses, second: &Uses) -> u8
    ensures { result ≡ number_of_registers exclusive first.now second.now }
{
    greater(
        read_after_write(first, second),
        greater(
            write_after_read(first, second),
            write_after_write(exclusive, first, second),
        ),
    )
}

/// The greatest bound of the other cases.
pub fn by_order(disjoint: bool, first: &Uses, second: &Uses) -> u8
    ensures { result ≡ number_of_order disjoint first.now.insn second.now.insn }
{
    greater(
        access_after_store(disjoint, first, second),
        greater(
            store_after_load(disjoint, first, second),
            before_branch(first, second),
        ),
    )
}
