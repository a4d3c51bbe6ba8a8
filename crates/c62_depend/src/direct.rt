//! The direct dependences of a block, found by registers.

ghost use Rattle.std.specs.Prelude.{ℤ, pos, negsuc, ◌≤ℤ◌, ◌+ℤ◌, int_le};
ghost use Rattle.c62_depend.specs.Height.{delay_at};
ghost use Rattle.std.specs.Prelude.{◌≡◌, ◌<◌, ◌≤◌, ◌+◌, ◌++◌, ◌||◌, ℕ, true, length, IfOk, OnOk};
ghost use Rattle.c62_read.specs.declared.limits.TheConstants.{MOST_INSTRUCTIONS};
ghost use Rattle.std.specs.Prelude.{List};
ghost use Rattle.c62_insn.specs.declared.insn.Insn.{Insn};
ghost use Rattle.c62_pair.specs.declared.uses.Uses.{Uses};
ghost use Rattle.c62_pair.specs.Uses.{insns_in};
ghost use Rattle.c62_depend.specs.Since.{AreSince};
ghost use Rattle.c62_depend.specs.Lists.{AreLists};
ghost use Rattle.c62_depend.specs.Links.{linked};
ghost use Rattle.c62_pair.specs.Numbers.{as_bound};
ghost use Rattle.c62_depend.specs.NumberSet.{number_in};
ghost use Rattle.c62_depend.specs.Direct.{land_behind, direct_before, direct_needs, direct_followers};
ghost use Rattle.c62_depend.specs.Walk.{AreAccesses, AreOrdered, AreOrders, AreJoined, AreUnpassed, AreAwaited, AreDirect, AreLinkedBefore};

use crate::latency::{are_in_order, latency_number};
use crate::links::{Link, Links};
use crate::number_set::NumberSet;
use crate::register_users::RegisterUsers;
use crate::since::Since;
use c62_pair::{Uses, as_bound};
use std::alloc::{AllocError, Global};

/// The accesses of memory that have an order with instruction `j`, which stands behind them.
fn ordered(uses: &[Uses], since: &[Since], accesses: NumberSet, j: usize) -> NumberSet
    requires few { length uses.now ≤ MOST_INSTRUCTIONS }
    requires within { j < length uses.now }
    requires since { AreSince uses.now since.now }
    requires accesses { AreAccesses uses.now j accesses }
    ensures { AreOrdered uses.now j result }
{
    let mut found = NumberSet::new();
    let mut at = 0;
    while let Some(i) = accesses.next(at) {
        found = found.with_if(i, are_in_order(uses, since, i, j));
        at = i + 1;
    }
    found
}

/// What those of a set have an order with, of what stands before them.
fn ordered_behind(orders: &[NumberSet], found: NumberSet) -> NumberSet
    requires { (k : ℕ) → number_in found k ≡ true → k < length orders.now }
    ensures { AreJoined orders.now found result }
{
    let mut joined = NumberSet::new();
    let mut at = 0;
    while let Some(k) = found.next(at) {
        joined = joined.joined(orders[k]);
        at = k + 1;
    }
    joined
}

/// Those that no other one passes: that stands behind them and has an order with them.
fn unpassed(orders: &[NumberSet], found: NumberSet) -> NumberSet
    requires { (k : ℕ) → number_in found k ≡ true → k < length orders.now }
    ensures { (uses : List Uses) (j : ℕ) → AreOrders uses j orders.now → AreOrdered uses j found → AreUnpassed uses j result }
{
    let passed = ordered_behind(orders, found);
    let mut direct = NumberSet::new();
    let mut at = 0;
    while let Some(i) = found.next(at) {
        direct = direct.with_if(i, !passed.has(i));
        at = i + 1;
    }
    direct
}

fn reaches_memory(one: &Uses) -> bool
    ensures { result ≡ (one.now.loads || one.now.stores) }
{
    one.loads || one.stores
}

/// The accesses of memory that have an order with instruction `j`, which stands behind them: none where it is no access.
fn ordered_with(uses: &[Uses], since: &[Since], accesses: NumberSet, j: usize) -> NumberSet
    requires few { length uses.now ≤ MOST_INSTRUCTIONS }
    requires within { j < length uses.now }
    requires since { AreSince uses.now since.now }
    requires accesses { AreAccesses uses.now j accesses }
    ensures { AreOrdered uses.now j result }
{
    let reaches = reaches_memory(&uses[j]);
    if reaches {
        ordered(uses, since, accesses, j)
    } else {
        NumberSet::new()
    }
}

/// Whether an instruction has landed once the one at the other end of its dependence has.
fn lands_behind(uses: &[Uses], first: &Uses, link: Link) -> bool
    requires within { link.number < length uses.now }
    requires above { negsuc 4 ≤ℤ link.latency }
    requires below { link.latency ≤ℤ pos 5 }
    ensures { result ≡ int_le (pos first.now.delay) (link.latency +ℤ pos (delay_at (insns_in uses.now) link.number)) }
{
    let second = &uses[link.number as usize];
    i32::from(first.delay) <= i32::from(link.latency) + i32::from(second.delay)
}

/// Whether instruction `i` has landed once one of these that depend on it has.
fn land_behind(uses: &[Uses], followers: &[Link], i: usize) -> bool
    requires within { i < length uses.now }
    requires linked { (j : ℕ) × (j ≤ length uses.now) × (followers.now ≡ direct_before (insns_in uses.now) i j) }
    ensures { result ≡ land_behind (insns_in uses.now) i followers.now }
{
    let first = &uses[i];
    for link in followers {
        if lands_behind(uses, first, *link) {
            return true;
        }
    }
    false
}

/// Where instruction `j` is the branch, those before it behind which nothing before it lands.
fn by_branch(uses: &[Uses], followers: &[Links], j: usize) -> NumberSet
    requires few { length uses.now ≤ MOST_INSTRUCTIONS }
    requires within { j < length uses.now }
    requires linked { AreLinkedBefore uses.now j followers.now }
    ensures { AreAwaited uses.now j result }
{
    let mut direct = NumberSet::new();
    if !uses[j].branches {
        return direct;
    }
    for i in 0..j {
        direct = direct.with_if(i, !land_behind(uses, followers[i].as_slice(), i));
    }
    direct
}

/// Adds a dependence to a list, where there is one.
fn add(list: &mut Links, number: u8, latency: u8) -> Result<(), AllocError>
    requires { latency ≤ 11 }
    ensures { OnOk result (list.new.items ≡ list.old.items ++ linked number (as_bound latency)) }
{
    if let Some(latency) = as_bound(latency) {
        list.push(Link {
            number,
            latency: latency as i8,
        })?;
    }
    Ok(())
}

/// Links instruction `j` with those that it depends on directly, and returns its links.
fn link(
    alloc: Global,
    uses: &[Uses],
    since: &[Since],
    followers: &mut [Links],
    direct: NumberSet,
    j: usize,
) -> Result<Links, AllocError>
    requires few { length uses.now ≤ MOST_INSTRUCTIONS }
    requires within { j < length uses.now }
    requires since { AreSince uses.now since.now }
    requires direct { AreDirect uses.now j direct }
    requires linked { AreLinkedBefore uses.now j followers.old }
    ensures needs { IfOk result (λ needs. needs.items ≡ direct_needs (insns_in uses.now) j) }
    ensures followers { IfOk result (λ _. AreLinkedBefore uses.now (j + 1) followers.new) }
{
    let mut needs = Links::new(alloc);
    let mut at = 0;
    while let Some(i) = direct.next(at) {
        let latency = latency_number(uses, since, i, j);
        add(&mut needs, i as u8, latency)?;
        add(&mut followers[i], j as u8, latency)?;
        at = i + 1;
    }
    Ok(needs)
}

/// Lists without links, for so many instructions.
fn no_links(alloc: Global, count: usize) -> Result<Vec<Links>, AllocError>
    ensures { (block : List Insn) → IfOk result (λ all. AreLists (λ i. direct_before block i 0) count all.items) }
{
    let mut all = Vec::with_capacity(alloc, count)?;
    for _ in 0..count {
        all.push(Links::new(alloc))?;
    }
    Ok(all)
}

/// What each instruction depends on directly, and what depends directly on each.
pub(crate) fn all_links(
    alloc: Global,
    uses: &[Uses],
    since: &[Since],
) -> Result<(Vec<Links>, Vec<Links>), AllocError>
    requires few { length uses.now ≤ MOST_INSTRUCTIONS }
    requires since { AreSince uses.now since.now }
    ensures needs { IfOk result (λ both. AreLists (direct_needs (insns_in uses.now)) (length uses.now) both.0.items) }
    ensures followers { IfOk result (λ both. AreLists (direct_followers (insns_in uses.now)) (length uses.now) both.1.items) }
{
    let mut users = RegisterUsers::new();
    let mut accesses = NumberSet::new();
    let mut orders = Vec::with_capacity(alloc, uses.len())?;
    let mut needs = Vec::with_capacity(alloc, uses.len())?;
    let mut followers = no_links(alloc, uses.len())?;
    for j in 0..uses.len() {
        let found = ordered_with(uses, since, accesses, j);
        let direct = users
            .behind(uses, j)
            .joined(unpassed(&orders, found))
            .joined(by_branch(uses, &followers, j));
        needs.push(link(alloc, uses, since, &mut followers, direct, j)?)?;
        orders.push(found)?;
        users.add(uses, j);
        accesses = accesses.with_if(j, reaches_memory(&uses[j]));
    }
    Ok((needs, followers))
}
