//! The tests of the board, and of what workers make of it.

#![tactic(auto)]

#[cfg(test)]
mod board;
#[cfg(test)]
mod expect;
#[cfg(test)]
mod faults;
#[cfg(test)]
mod made;
#[cfg(test)]
mod pack;
#[cfg(test)]
mod view;
#[cfg(test)]
mod work;
