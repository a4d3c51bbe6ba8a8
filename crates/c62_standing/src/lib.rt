//! What is shown of packets as they stand: how short a schedule of their serial block could be, and why their instructions stand where
//! they do (docs/SHOW.md, "Packets as they stand").
#![tactic(auto)]

mod standing;

pub use standing::{Details, shown_as_they_stand};
