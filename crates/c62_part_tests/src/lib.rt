//! The tests of what no command shows of instructions, texts, packets, plans, placements, loops and runs. All else that is asked of them
//! stands in tests/cases.

#![tactic(auto)]

#[cfg(test)]
mod adopt;
#[cfg(test)]
mod common;
#[cfg(test)]
mod expect;
#[cfg(test)]
mod flight;
#[cfg(test)]
mod insn;
#[cfg(test)]
mod loops;
#[cfg(test)]
mod plan;
#[cfg(test)]
mod read;
#[cfg(test)]
mod runs;
#[cfg(test)]
mod schedule;
#[cfg(test)]
mod sheet;
