//! What a caller sees of the values of c62's crates, as one number by which two of them are told apart. None of it takes memory.

use c62_board::Board;
use c62_depend::Plan;
use c62_packet::{PacketBlock, Packets};
use c62_read::Block;
use c62_serial::{MEMORY_BYTES, State};
use std::fmt;
use std::fmt::{Debug, Write};

const START: u64 = 0xcbf2_9ce4_8422_2325;

const FACTOR: u64 = 0x0000_0100_0000_01b3;

/// A sum over bytes, by which two texts are told apart. It depends on each byte and on their order.
#[derive(Clone, Copy)]
pub(crate) struct Digest {
    sum: u64,
}

impl Digest {
    fn add_byte(&mut self, byte: u8) {
        self.sum = (self.sum ^ u64::from(byte)).wrapping_mul(FACTOR);
    }

    /// Adds a value as it is written with the names of its parts.
    fn add<T: Debug>(&mut self, value: &T) {
        // To write here never fails.
        let _ = write!(self, "{value:?};");
    }
}

impl Write for Digest {
    fn write_str(&mut self, s: &str) -> fmt::Result {
        for byte in s.as_bytes() {
            self.add_byte(*byte);
        }
        Ok(())
    }
}

/// A value of which a caller sees something, by calls that take no memory.
pub(crate) trait Seen {
    /// Adds what is seen.
    fn add_to(&self, digest: &mut Digest);
}

impl Seen for () {
    fn add_to(&self, _digest: &mut Digest) {}
}

impl<T: Seen> Seen for Option<T> {
    fn add_to(&self, digest: &mut Digest) {
        match self {
            None => digest.add(&false),
            Some(value) => value.add_to(digest),
        }
    }
}

impl<A: Seen, B: Seen> Seen for (A, B) {
    fn add_to(&self, digest: &mut Digest) {
        self.0.add_to(digest);
        self.1.add_to(digest);
    }
}

impl Seen for Block {
    fn add_to(&self, digest: &mut Digest) {
        digest.add(self);
    }
}

impl Seen for Plan {
    fn add_to(&self, digest: &mut Digest) {
        digest.add(self.block());
        for i in 0..self.len() {
            digest.add(&(self.side(i), self.units(i), self.height(i)));
            digest.add(&(self.needs(i), self.followers(i)));
        }
    }
}

impl Seen for Board {
    fn add_to(&self, digest: &mut Digest) {
        self.plan().add_to(digest);
        digest.add(&(self.journal(), self.budget()));
        for i in 0..self.plan().len() {
            digest.add(&self.spot_of(i));
        }
    }
}

impl Seen for PacketBlock {
    fn add_to(&self, digest: &mut Digest) {
        digest.add(&(self.label(), self.length()));
        for placed in self.placed() {
            digest.add(&(placed.insn, placed.line, placed.cycle, placed.unit));
        }
    }
}

impl Seen for Packets {
    fn add_to(&self, digest: &mut Digest) {
        for block in self.blocks() {
            block.add_to(digest);
        }
    }
}

impl Seen for State {
    fn add_to(&self, digest: &mut Digest) {
        digest.add(&(self.registers(), self.faults()));
        for address in 0..MEMORY_BYTES {
            digest.add_byte(self.byte(address as u16));
        }
    }
}

/// The sum over what is seen of a value.
pub(crate) fn look_at<T: Seen>(value: &T) -> u64 {
    look_of(&(), value)
}

/// The sum over what a call answered, and what is seen of what it left.
pub(crate) fn look_of<T: Debug, S: Seen>(answer: &T, left: &S) -> u64 {
    let mut digest = Digest { sum: START };
    digest.add(answer);
    left.add_to(&mut digest);
    digest.sum
}
