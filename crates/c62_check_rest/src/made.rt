//! Blocks of packets of what rows issue.

ghost use Rattle.std.specs.Prelude.{◌≡◌, ◌↔◌, ℕ, Some, IfSome, IsTrue};
ghost use Rattle.std.specs.Bool.{OnTrue};
ghost use Rattle.c62_insn.specs.Insn.{unit_of};
ghost use Rattle.c62_packet.specs.Packed.{listing_position, IsInListingOrder, StandAsWritten};
ghost use Rattle.c62_check_rest.specs.Rows.{IsMade};

use c62_packet::{BlockFault, MOST_CYCLES, PacketBlock, Placed};
use c62_read::MOST_INSTRUCTIONS;

/// The position of an instruction in a listing: by cycle, and in a cycle by unit.
fn listing_position(placed: &Placed) -> u32
    ensures { result ≡ listing_position placed.now }
{
    8 * u32::from(placed.cycle) + placed.unit.index() as u32
}

/// Whether these stand by cycle, and in a cycle by unit.
fn are_in_order(placed: &[Placed]) -> bool
    ensures { OnTrue result (IsInListingOrder placed.now) }
{
    for number in 1..placed.len() {
        if listing_position(&placed[number]) < listing_position(&placed[number - 1]) {
            return false;
        }
    }
    true
}

fn stands_as_written(placed: &Placed) -> bool
    ensures { IsTrue result ↔ (unit_of placed.now.insn ≡ Some placed.now.unit) }
{
    match placed.insn.unit() {
        Some(unit) => unit == placed.unit,
        None => false,
    }
}

/// Whether each stands on the unit that is written with it.
fn stand_as_written(placed: &[Placed]) -> bool
    ensures { IsTrue result ↔ StandAsWritten placed.now }
{
    placed.iter().all(|each| stands_as_written(each))
}

/// Whether these are few enough for a block, and stand as one asks.
fn may_be_block(cycles: u16, placed: &[Placed]) -> bool
    ensures { OnTrue result (MayBeBlock cycles placed.now) }
{
    placed.len() <= MOST_INSTRUCTIONS
        && cycles <= MOST_CYCLES
        && are_in_order(placed)
        && stand_as_written(placed)
}

ghost use Rattle.c62_check_rest.specs.Rows.{MayBeBlock};

/// The cycles of a block of these: a branch takes effect six cycles after its issue, and without one all has landed.
fn length_of(placed: &[Placed]) -> u16 {
    let mut end = 0;
    for each in placed {
        if each.insn.op().is_branch() {
            return each.cycle.saturating_add(6);
        }
        let landed = each
            .cycle
            .saturating_add(u16::from(each.insn.greatest_delay()))
            .saturating_add(1);
        end = end.max(landed);
    }
    end
}

/// The block of packets that these instructions make, with their own length, or why they make none. `None` where they are too many for a
/// block or take too long.
pub(crate) fn made_of(placed: Vec<Placed>) -> Option<Result<PacketBlock, BlockFault>>
    ensures { IfSome result (IsMade placed.items) }
{
    let cycles = length_of(&placed);
    if may_be_block(cycles, &placed) {
        Some(PacketBlock::new(None, cycles, placed))
    } else {
        None
    }
}
