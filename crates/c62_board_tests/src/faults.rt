//! What faults say where they are shown: those of a board and of packets, and those that memory ran out.

use crate::expect::equal;
use c62_board::{CommitFault, PlaceFault, ReplayFault, WithdrawFault};
use c62_listing_reader::ListFault;
use c62_pack::AtFault;
use c62_read::{Cause, ReadFault};
use std::test::Fail;

#[test]
fn faults_have_texts(rt: HostRuntime) -> Result<(), Fail> {
    let alloc = rt.alloc();
    let unread = ReadFault {
        line: 0,
        cause: Cause::Memory,
    };
    for (said, texts) in [
        (
            format!(in alloc;
                "{}, {}, {}",
                PlaceFault::NotReady,
                PlaceFault::NoRoom,
                PlaceFault::Memory
            )?,
            "NotReady, NoRoom, Memory",
        ),
        (
            format!(in alloc;
                "{}, {}, {}",
                CommitFault::NotReady,
                CommitFault::Stale(7),
                CommitFault::Memory
            )?,
            "NotReady, Stale at 7, Memory",
        ),
        (
            format!(in alloc; "{}, {}", WithdrawFault::NotPlaced, WithdrawFault::Memory)?,
            "NotPlaced, Memory",
        ),
        (
            format!(in alloc; "{}, {}", ReplayFault::BadEntry(7), ReplayFault::Memory)?,
            "BadEntry 7, Memory",
        ),
        (
            format!(in alloc; "{}, {}", AtFault::NotLawful, AtFault::Memory)?,
            "NotLawful, Memory",
        ),
        (
            format!(in alloc; "{unread}, {}", ListFault::Memory)?,
            "line 0: Memory, memory",
        ),
    ] {
        equal(&rt, &said.as_str(), &texts);
    }
    Ok(())
}
