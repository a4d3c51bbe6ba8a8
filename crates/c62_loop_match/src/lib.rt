//! Decides whether packets pipeline a counted loop, where it is told what stands where.
#![tactic(auto)]

mod begins;
mod beyond;
mod borders;
mod collapse;
mod counted;
mod decision;
mod distances;
mod early;
mod layout;
mod members;
mod needs;
mod parts;
mod path;
mod promise;
mod refusal;
mod stands;
mod steering;
mod turns;
mod unlined;

pub use beyond::Beyond;
pub use collapse::collapses;
pub use counted::{counts, is_counted_loop, touches};
pub use decision::decide;
pub use early::Early;
pub use parts::{Control, Pipelined, Region, Schedule, Stage};
pub use promise::Promise;
pub use refusal::{Refusal, refusal_of};
