//! The order of a listing.

ghost use Rattle.std.specs.Prelude.{◌≡◌};
ghost use Rattle.std.specs.List.Sorted.{IsPermutation};
ghost use Rattle.c62_packet.specs.Packed.{listing_position, IsInListingOrder};

use crate::placed::Placed;

/// The position of an instruction in a listing: by cycle, and in a cycle by unit.
fn listing_position(placed: &Placed) -> u32
    ensures { result ≡ listing_position placed.now }
{
    8 * u32::from(placed.cycle) + placed.unit.index() as u32
}

/// These instructions in listing order: by cycle, and in a cycle by unit.
pub fn in_listing_order(placed: Vec<Placed>) -> Vec<Placed>
    ensures same { IsPermutation placed.items result.items }
    ensures order { IsInListingOrder result.items }
{
    let mut listed = placed;
    listed.sort_unstable_by_key(|each| listing_position(each));
    listed
}
