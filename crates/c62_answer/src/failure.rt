//! Why a run fails, its status, and what it says of it.

ghost use Rattle.std.specs.Prelude.{◌≡◌, ◌⊎◌};
ghost use Rattle.c62_answer.specs.declared.failure.Failure.TheVariants.{Memory, Input};
ghost use Rattle.c62_answer.specs.Run.{status_of, IsCommandFailure, IsReadFailure, IsListFailure, IsAdoptFailure, IsRowsFailure, IsTextFailure, IsListingFailure, IsPacketsFailure, IsRowsPartFailure};

use crate::input::InputError;
use c62_adopt::AdoptFault;
use c62_command::{BadPromise, CommandError, Exclusion};
use c62_listing_reader::ListFault;
use c62_read::{Cause, ReadFault};
use c62_rows::RowsFault;
use std::alloc::AllocError;

/// Why a run fails.
#[derive(Debug, Drop)]
pub enum Failure {
    /// The serial text has a fault.
    Unread(ReadFault),
    /// The listing has a fault.
    Unlisted(ListFault),
    /// The text of packets has a fault.
    Unadopted(AdoptFault),
    /// The text of packets that is to run in flight has a fault, or no line has the label that is to be
    /// begun with.
    Unflown(RowsFault),
    /// The serial text of what is to be checked has a fault.
    TextPart(ReadFault),
    /// The listing of what is to be checked has a fault.
    ListingPart(ListFault),
    /// The packets of what is to be checked, as they are written, have a fault.
    PacketsPart(AdoptFault),
    /// The packets in flight of what is to be checked have a fault.
    RowsPart(RowsFault),
    /// What is to be checked has no line `---`, and so no listing.
    NoListing,
    /// The `--trips` of this number, from 1, names a label that is no loop's.
    NoLoop(usize),
    /// The words ask for nothing that there is.
    Words(clap::Error),
    /// The setting with this number, from 1, is none.
    Setting(usize),
    /// This promise says nothing.
    Promise(BadPromise),
    /// Two options exclude each other.
    Excluded(Exclusion),
    /// Memory ran out.
    Memory,
    /// The reader failed.
    Input,
    /// The output failed.
    Output,
}

impl Failure {
    /// The status that the program ends with.
    pub fn status(&self) -> u8
        ensures { result ≡ status_of self.now }
    {
        match self {
            Failure::Unread(_) | Failure::Unlisted(_) => 1,
            Failure::Unadopted(_) | Failure::Unflown(_) => 1,
            Failure::TextPart(_) | Failure::ListingPart(_) => 1,
            Failure::PacketsPart(_) | Failure::NoListing => 1,
            Failure::RowsPart(_) | Failure::NoLoop(_) => 1,
            Failure::Words(_) | Failure::Setting(_) | Failure::Promise(_) => 2,
            Failure::Excluded(_) => 2,
            Failure::Memory => 3,
            Failure::Input | Failure::Output => 4,
        }
    }

    /// The failure of a check whose text has this fault.
    pub fn of_text(fault: ReadFault) -> Failure
        ensures { IsTextFailure fault result }
    {
        match fault.cause {
            Cause::Memory => Failure::Memory,
            _ => Failure::TextPart(fault),
        }
    }

    /// The failure of a check whose listing has this fault.
    pub fn of_listing(fault: ListFault) -> Failure
        ensures { IsListingFailure fault result }
    {
        match fault {
            ListFault::Memory => Failure::Memory,
            _ => Failure::ListingPart(fault),
        }
    }

    /// The failure of a check whose packets, as they are written, have this fault.
    pub fn of_packets(fault: AdoptFault) -> Failure
        ensures { IsPacketsFailure fault result }
    {
        match fault {
            AdoptFault::Memory => Failure::Memory,
            _ => Failure::PacketsPart(fault),
        }
    }

    /// The failure of a check whose packets in flight have this fault.
    pub fn of_rows(fault: RowsFault) -> Failure
        ensures { IsRowsPartFailure fault result }
    {
        match fault {
            RowsFault::Memory => Failure::Memory,
            _ => Failure::RowsPart(fault),
        }
    }
}

impl From<AllocError> for Failure {
    ghost from_gives = { λ _ f. f ≡ Memory };

    fn from(_error: AllocError) -> Failure {
        Failure::Memory
    }
}

impl From<InputError> for Failure {
    ghost from_gives = { λ _ f. (f ≡ Memory) ⊎ (f ≡ Input) };

    fn from(error: InputError) -> Failure {
        match error {
            InputError::Memory => Failure::Memory,
            InputError::Input => Failure::Input,
        }
    }
}

impl From<ReadFault> for Failure {
    ghost from_gives = { λ fault f. IsReadFailure fault f };

    fn from(fault: ReadFault) -> Failure {
        match fault.cause {
            Cause::Memory => Failure::Memory,
            _ => Failure::Unread(fault),
        }
    }
}

impl From<ListFault> for Failure {
    ghost from_gives = { λ fault f. IsListFailure fault f };

    fn from(fault: ListFault) -> Failure {
        match fault {
            ListFault::Memory => Failure::Memory,
            _ => Failure::Unlisted(fault),
        }
    }
}

impl From<AdoptFault> for Failure {
    ghost from_gives = { λ fault f. IsAdoptFailure fault f };

    fn from(fault: AdoptFault) -> Failure {
        match fault {
            AdoptFault::Memory => Failure::Memory,
            _ => Failure::Unadopted(fault),
        }
    }
}

impl From<RowsFault> for Failure {
    ghost from_gives = { λ fault f. IsRowsFailure fault f };

    fn from(fault: RowsFault) -> Failure {
        match fault {
            RowsFault::Memory => Failure::Memory,
            _ => Failure::Unflown(fault),
        }
    }
}

impl From<CommandError> for Failure {
    ghost from_gives = { λ error f. IsCommandFailure error f };

    fn from(error: CommandError) -> Failure {
        match error {
            CommandError::Words(error) => Failure::Words(error),
            CommandError::Setting(number) => Failure::Setting(number),
            CommandError::Promise(bad) => Failure::Promise(bad),
            CommandError::Excluded(exclusion) => Failure::Excluded(exclusion),
            CommandError::Memory => Failure::Memory,
        }
    }
}
