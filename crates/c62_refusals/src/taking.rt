//! A call that is refused as often as the words say, by which it is seen what is told of refusals.

use crate::twice::{Came, twice_on};
use c62_work::Options;

/// What the call is made on.
#[derive(Drop)]
struct Stock {
    refusals: u32,
    spends: u64,
    held: u64,
}

/// Answers what is held, or nothing where the call is refused, and then spends something of it.
fn taken(stock: &mut Stock) -> Option<u64> {
    match stock.refusals.checked_sub(1) {
        None => Some(stock.held),
        Some(left) => {
            stock.refusals = left;
            stock.held = stock.held.saturating_sub(stock.spends);
            None
        }
    }
}

/// Takes 7, refused as often as there are turns, and spends as much of it each time as there are ejections.
pub(crate) fn takes(options: Options) -> Came {
    let mut stock = Stock {
        refusals: options.turns,
        spends: u64::from(options.budget),
        held: 7,
    };
    twice_on(&mut stock, &|stock| stock.held, &|stock| taken(stock))
}
