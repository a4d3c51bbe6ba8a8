//! Why instructions and cycles make no packet block.

ghost use Rattle.std.specs.Prelude.{◌≡◌, Some};
ghost use Rattle.c62_packet.specs.declared.fault.PacketRule.{PacketRule as RuleOf};
ghost use Rattle.c62_packet.specs.FaultText.{rule_name, block_fault_text};

use c62_rules::CycleRule;
use std::error::Error;
use std::fmt;

/// A rule of execute packets (`docs/MACHINE.md`, "Packet rules"; SPRU189, "Resource Constraints").
#[derive(Clone, Copy, PartialEq, Eq, Debug)]
pub enum PacketRule {
    /// One of the rules P1 to P4, of the resources of a cycle.
    InCycle(CycleRule),
    /// No two writes of a register land together.
    P5,
}

impl PacketRule {
    /// Its name, which no other rule has.
    pub fn name(self) -> &'static str
        ensures name { result.now ≡ rule_name self }
        ensures own { (other : RuleOf) → rule_name other ≡ result.now → other ≡ self }
    {
        match self {
            PacketRule::InCycle(rule) => rule.name(),
            PacketRule::P5 => "P5",
        }
    }
}

impl fmt::Display for PacketRule {
    ghost output = { λ rule. Some (rule_name rule) };

    fn fmt<W: fmt::Write>(&self, f: &mut fmt::Formatter<W>) -> fmt::Result {
        f.write_str(self.name())
    }
}

impl Error for PacketRule {}

/// What stands against a block that is written with so many cycles.
#[derive(Clone, Copy, PartialEq, Eq, Debug)]
pub enum BlockFault {
    /// More than one branch.
    TwoBranches,
    /// The cycles written are not the block's length, or something lands in or after that cycle.
    NotDrained,
    /// The least cycle in which a packet rule is broken, which for P5 is the landing cycle, and the
    /// first rule that is broken there.
    Unlawful(u16, PacketRule),
}

impl fmt::Display for BlockFault {
    ghost output = { λ fault. Some (block_fault_text fault) };

    fn fmt<W: fmt::Write>(&self, f: &mut fmt::Formatter<W>) -> fmt::Result {
        match self {
            BlockFault::TwoBranches => f.write_str("TwoBranches"),
            BlockFault::NotDrained => f.write_str("NotDrained"),
            BlockFault::Unlawful(cycle, rule) => write!(f, "cycle {cycle}: {rule}"),
        }
    }
}

impl Error for BlockFault {}
