//! What turns leave on the bells, and whom a call wakes.

use crate::expect::{equal, equal_in};
use crate::made::{SUM, desk_on};
use c62_insn::Side::{self, A, B};
use c62_work::bells::{ALONE, ASLEEP, Bell, Bells, QUIET, RUNG};
use c62_work::take_turn;
use std::sync::Mutex;
use std::sync::atomic::{AtomicU64, Ordering};
use std::thread::join;
use std::time::Duration;

/// Whose turn it was, and what stands on the bells of side A and of side B behind it.
type Behind = (Side, u64, u64);

/// Blocks, whether side A's worker has ended, and turns on each.
const TURNS: [(&str, bool, &[Behind]); 4] = [
    // Side B waits for all to be placed, and is called for nothing else.
    (
        SUM,
        false,
        &[
            (B, RUNG, QUIET),
            (A, RUNG, QUIET),
            (A, RUNG, QUIET),
            (A, RUNG, RUNG),
            (B, RUNG, RUNG),
        ],
    ),
    // Nobody is called who has nobody to wait for.
    (
        SUM,
        true,
        &[
            (B, RUNG, ALONE),
            (A, RUNG, ALONE),
            (A, RUNG, ALONE),
            (A, RUNG, ALONE),
        ],
    ),
    // Each side waits for what the other one makes ready.
    (
        "MVK 5,B1\nADD A1,B1,A2\nADD B2,A2,B3\nADD A2,A3,A4",
        false,
        &[
            (A, QUIET, RUNG),
            (B, RUNG, RUNG),
            (B, RUNG, QUIET),
            (A, RUNG, RUNG),
            (A, RUNG, RUNG),
            (A, QUIET, RUNG),
            (B, RUNG, RUNG),
        ],
    ),
    (
        "MVK 5,A1\nADD B1,A1,B2",
        false,
        &[
            (B, RUNG, QUIET),
            (A, RUNG, RUNG),
            (A, QUIET, RUNG),
            (B, RUNG, RUNG),
            (A, RUNG, RUNG),
        ],
    ),
];

/// A nap that nobody waits for.
fn long_nap() -> Duration {
    Duration::from_secs(100_000)
}

/// Who is called, or has nobody to wait for, doesn't wait.
#[test]
fn placings_call(rt: HostRuntime) {
    for (text, ended, turns) in &TURNS {
        let (desk, _first, _second) = desk_on(&rt, rt.alloc(), text, 0);
        let desk = Mutex::new(desk);
        let bells = Bells::new();
        if *ended {
            bells.ended(A);
        }
        for (side, first, second) in *turns {
            take_turn(&rt, &desk, None, *side, Some(&bells));
            let words = (
                bells.first.word.load(Ordering::SeqCst),
                bells.second.word.load(Ordering::SeqCst),
            );
            equal_in(&rt, text, &words, &(*first, *second));
        }
        desk.into_inner().close(&rt);
        bells.second.wait(&rt, long_nap());
    }
}

/// How often it is looked whether a worker is asleep.
const LOOKS_AT: u32 = 10_000_000;

/// Waits until the bell's worker is asleep.
fn is_asleep(bell: &Bell) -> bool {
    for _ in 0..LOOKS_AT {
        if bell.word.load(Ordering::SeqCst) == ASLEEP {
            return true;
        }
    }
    false
}

/// A worker that sleeps is woken by a call, long before its nap is over: else this test lasts too long.
#[test]
fn a_call_wakes(rt: HostRuntime) {
    let bell = Bell {
        word: AtomicU64::new(QUIET),
    };
    let ((), was_asleep) = join(
        &rt,
        || bell.wait(&rt, long_nap()),
        || {
            let was_asleep = is_asleep(&bell);
            bell.ring();
            was_asleep
        },
    );
    equal(&rt, &was_asleep, &true);
}
