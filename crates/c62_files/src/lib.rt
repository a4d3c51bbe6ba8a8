//! The files that the words of the command line name: which words do, and how files are read and written (docs/COMMANDS.md,
//! "Files").
#![tactic(auto)]

mod call;
mod disk;
mod dump;
mod expand;
mod folder;
mod load;
mod memory;
mod piece;
mod settings;
mod wanted;
mod writing;

pub use call::{Call, CallError, Source, call_of};
pub use disk::{Disk, DiskSheet};
pub use dump::equals_parts;
pub use expand::{MOST_SETTINGS, Unexpanded, Unread, expanded};
pub use folder::{FileError, Folder, Reason, end_sheet};
pub use load::Misfit;
pub use memory::MemoryFile;
pub use piece::Piece;
pub use wanted::has_value;
pub use writing::{Output, Unwritten, write_files};
