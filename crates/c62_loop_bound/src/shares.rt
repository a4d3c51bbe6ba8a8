//! The most cycles that a share asks for.

ghost use Rattle.std.specs.Prelude.{◌≡◌, ◌<◌, ◌≤◌, ◌*◌, ◌^◌, length};
ghost use Rattle.c62_op.specs.declared.register.Reg.{Reg as Register};
ghost use Rattle.c62_insn.specs.declared.unit_set.UnitSet.{UnitSet as Units};
ghost use Rattle.c62_read.specs.declared.limits.TheConstants.{MOST_INSTRUCTIONS};
ghost use Rattle.c62_pair.specs.Uses.{insns_in};
ghost use Rattle.c62_loop_bound.specs.declared.share.Share.TheVariants.{Units as OfUnits, CrossPath as OfCrossPath, DataPath as OfDataPath, Reads as OfReads};
ghost use Rattle.c62_loop_bound.specs.Share.{AreCovered};
ghost use Rattle.c62_loop_bound.specs.Steps.{IsFound, Covers};

use crate::share::Share;
use bitflags::Flags;
use c62_insn::{Reg, Side, UnitSet};
use c62_pair::Uses;
use c62_read::MOST_INSTRUCTIONS;

/// The greater of so many cycles, and those that a share asks for.
fn with(share: Share, counter: Reg, work: &[Uses], least: usize) -> usize
    requires few { length work.now ≤ MOST_INSTRUCTIONS }
    requires low { least ≤ 3 * MOST_INSTRUCTIONS }
    requires found { IsFound counter (insns_in work.now) least }
    ensures low { result ≤ 3 * MOST_INSTRUCTIONS }
    ensures found { IsFound counter (insns_in work.now) result }
    ensures least { least ≤ result }
    ensures covers { Covers counter (insns_in work.now) share result }
{
    if share.width() == 0 {
        return least;
    }
    least.max(share.cycles(counter, work))
}

/// The most cycles that a set of units asks for.
fn by_units(counter: Reg, work: &[Uses]) -> usize
    requires { length work.now ≤ MOST_INSTRUCTIONS }
    ensures low { result ≤ 3 * MOST_INSTRUCTIONS }
    ensures found { IsFound counter (insns_in work.now) result }
    ensures covers { (set : Units) → set.0 < 2 ^ 8 → Covers counter (insns_in work.now) (OfUnits set) result }
{
    let mut least = 0;
    for bits in 0..256u16 {
        let set = UnitSet::from_bits_retain(bits as u8);
        least = with(Share::Units(set), counter, work, least);
    }
    least
}

/// The greater of so many cycles, and those that the paths of a side ask for.
fn with_paths(side: Side, counter: Reg, work: &[Uses], least: usize) -> usize
    requires few { length work.now ≤ MOST_INSTRUCTIONS }
    requires low { least ≤ 3 * MOST_INSTRUCTIONS }
    requires found { IsFound counter (insns_in work.now) least }
    ensures low { result ≤ 3 * MOST_INSTRUCTIONS }
    ensures found { IsFound counter (insns_in work.now) result }
    ensures least { least ≤ result }
    ensures cross_path { Covers counter (insns_in work.now) (OfCrossPath side) result }
    ensures data_path { Covers counter (insns_in work.now) (OfDataPath side) result }
{
    let crossed = with(Share::CrossPath(side), counter, work, least);
    with(Share::DataPath(side), counter, work, crossed)
}

/// The greater of so many cycles, and those that reads of the registers of a side ask for.
fn with_reads(side: Side, counter: Reg, work: &[Uses], least: usize) -> usize
    requires few { length work.now ≤ MOST_INSTRUCTIONS }
    requires low { least ≤ 3 * MOST_INSTRUCTIONS }
    requires found { IsFound counter (insns_in work.now) least }
    ensures low { result ≤ 3 * MOST_INSTRUCTIONS }
    ensures found { IsFound counter (insns_in work.now) result }
    ensures least { least ≤ result }
    ensures covers { (reg : Register) → reg.side ≡ side → Covers counter (insns_in work.now) (OfReads reg) result }
{
    let mut most = least;
    for number in 0..16u8 {
        most = with(Share::Reads(Reg { side, number }), counter, work, most);
    }
    most
}

/// The greater of so many cycles, and those that paths and reads of a side ask for.
fn with_side(side: Side, counter: Reg, work: &[Uses], least: usize) -> usize
    requires few { length work.now ≤ MOST_INSTRUCTIONS }
    requires low { least ≤ 3 * MOST_INSTRUCTIONS }
    requires found { IsFound counter (insns_in work.now) least }
    ensures low { result ≤ 3 * MOST_INSTRUCTIONS }
    ensures found { IsFound counter (insns_in work.now) result }
    ensures least { least ≤ result }
    ensures cross_path { Covers counter (insns_in work.now) (OfCrossPath side) result }
    ensures data_path { Covers counter (insns_in work.now) (OfDataPath side) result }
    ensures reads { (reg : Register) → reg.side ≡ side → Covers counter (insns_in work.now) (OfReads reg) result }
{
    let paths = with_paths(side, counter, work, least);
    with_reads(side, counter, work, paths)
}

/// The most cycles that a share asks of each pass.
pub(crate) fn by_shares(counter: Reg, work: &[Uses]) -> usize
    requires { length work.now ≤ MOST_INSTRUCTIONS }
    ensures low { result ≤ 3 * MOST_INSTRUCTIONS }
    ensures found { IsFound counter (insns_in work.now) result }
    ensures covers { AreCovered counter (insns_in work.now) result }
{
    let units = by_units(counter, work);
    let on_a = with_side(Side::A, counter, work, units);
    with_side(Side::B, counter, work, on_a)
}
