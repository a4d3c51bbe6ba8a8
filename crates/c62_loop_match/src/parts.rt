//! A counted loop, its packets, and what stands where in them (docs/CHECK.md, "Pipelined loops").

use c62_insn::Reg;
use c62_packet::Placed;
use c62_read::SerialInsn;
use c62_rows::Rows;

/// A counted loop with straight instructions before and behind it.
#[derive(Drop)]
pub struct Region {
    /// The instructions above the label.
    pub before: Vec<SerialInsn>,
    /// Those of the loop's block.
    pub body: Vec<SerialInsn>,
    /// Those behind the block.
    pub behind: Vec<SerialInsn>,
    /// The register that the block's branch tests.
    pub counter: Reg,
    /// The number of the block.
    pub number: u8,
}

/// Rows of a text, one behind the other: those of a prolog, of a kernel and of an epilog.
#[derive(Drop)]
pub struct Pipelined {
    /// The text. Its instructions have the lines of the serial ones that they stand for.
    pub rows: Rows,
    /// The prolog's first row.
    pub first: u32,
    /// How many rows the prolog has.
    pub prolog: u32,
    /// How many the kernel has.
    pub kernel: u32,
    /// How many the epilog has.
    pub epilog: u32,
    /// The number of the label that the kernel's branches name.
    pub label: u8,
}

/// Where an instruction of the loop stands.
#[derive(Drop)]
pub struct Stage {
    /// Its instances in the prolog, iteration by iteration.
    pub early: Vec<Placed>,
    /// That in the first pass of the kernel.
    pub kernel: Placed,
    /// Those in the epilog, with the cycles that they have where the kernel isn't passed at all.
    pub late: Vec<Placed>,
}

/// Where the instructions above the label of a region stand, and the work of the rest: all but steps of the counter and branches.
#[derive(Drop)]
pub struct Schedule {
    /// The instructions before the loop, in the prolog.
    pub before: Vec<Placed>,
    /// Those of the loop, in their order.
    pub stages: Vec<Stage>,
    /// Those behind the loop, in the epilog, with the cycles that they have where the kernel isn't passed at all.
    pub behind: Vec<Placed>,
    /// The cycles from one pass of the kernel to the next.
    pub interval: u16,
}

/// The steps of the counter and the branches that test it, in an order in which they count.
#[derive(Drop)]
pub struct Control {
    /// Those of the prolog.
    pub early: Vec<Placed>,
    /// Those of the kernel's first pass.
    pub kernel: Vec<Placed>,
}
