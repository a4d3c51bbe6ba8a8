//! Registers, functional units and operations: the instruction table, and what each operation computes.
#![tactic(auto)]

mod form;
mod kind;
pub mod laws;
mod meaning;
mod operands;
mod register;
mod set;
mod source;
mod table;
mod word;

pub use form::{unit_takes, unit_takes_in, units_taking};
pub use operands::{AddressForm, Offset, Op, Operands};
pub use register::{Cond, Letter, Reg, Side, Unit};
pub use set::InstructionSet;
pub use word::word_of;
