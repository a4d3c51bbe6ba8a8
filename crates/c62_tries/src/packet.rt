//! What is issued in a cycle, before units are chosen.

ghost use Rattle.std.specs.Prelude.{◌<◌, length};

use c62_depend::Plan;
use c62_insn::{Insn, Letter, Side, Unit};

/// How many sets of a side's units there are.
const SETS: u8 = 16;

/// The most operands of a cycle that read one register.
const MOST_READS: u8 = 4;

/// The units of a side, in their order.
const LETTERS: [Letter; 4] = [Letter::L, Letter::S, Letter::M, Letter::D];

/// An instruction that asks for room in a cycle.
#[derive(Clone, Copy)]
pub(crate) struct Guest {
    insn: Insn,
    side: Side,
    /// The units of its side that it may stand on, a bit for each, .L first.
    units: u8,
}

impl Guest {
    /// Instruction `i` of a plan.
    pub(crate) fn new(plan: &Plan, i: u16) -> Guest
        requires { i < length plan.now.insns }
    {
        let side = plan.side(i);
        let set = plan.units(i);
        let mut units = 0u8;
        let mut bit = 1u8;
        for letter in LETTERS {
            if set.has(Unit { letter, side }) {
                units |= bit;
            }
            bit = bit.wrapping_mul(2);
        }
        Guest {
            insn: plan.insn(i),
            side,
            units,
        }
    }

    fn crosses(&self) -> bool {
        self.insn.operands().crosses_to(self.side)
    }
}

/// What is issued in a cycle. No units are chosen yet.
#[derive(Clone, Copy)]
pub(crate) struct Packet {
    /// Of each side, A first, and of each set of its units: how many instructions may stand on these alone.
    within: [u8; 32],
    /// How many operands read each register.
    reads: [u8; 32],
    /// Of each side, whether the cross path to it is used.
    crossed: [bool; 2],
    /// Of each side, whether its data path is used.
    accessed: [bool; 2],
}

/// Where what is kept of a set of a side's units stands.
fn place_of(side: Side, set: u8) -> usize
    requires { set < 16 }
    ensures { result < 32 }
{
    16 * side as usize + usize::from(set)
}

impl Packet {
    pub(crate) fn new() -> Packet {
        Packet {
            within: [0; 32],
            reads: [0; 32],
            crossed: [false; 2],
            accessed: [false; 2],
        }
    }

    /// Whether all that is issued, and this instruction, can each have a unit of its own: of each set of units no more
    /// instructions may stand on these alone than they are.
    fn has_unit(&self, guest: &Guest) -> bool {
        for set in 0..SETS {
            let only = guest.units & !set == 0;
            if only && u32::from(self.within[place_of(guest.side, set)]) >= set.count_ones() {
                return false;
            }
        }
        true
    }

    fn has_paths(&self, guest: &Guest) -> bool {
        if guest.crosses() && self.crossed[guest.side as usize] {
            return false;
        }
        match guest.insn.data_path() {
            Some(side) => !self.accessed[side as usize],
            None => true,
        }
    }

    /// Whether no register is read more often than a cycle allows. An instruction that reads one twice counts twice.
    fn has_reads(&self, guest: &Guest) -> bool {
        let mut reads = self.reads;
        for reg in guest.insn.reads() {
            let index = usize::from(reg.index());
            if reads[index] >= MOST_READS {
                return false;
            }
            reads[index] += 1;
        }
        true
    }

    /// Whether the instruction can be issued here too.
    pub(crate) fn fits(&self, guest: &Guest) -> bool {
        self.has_paths(guest) && self.has_unit(guest) && self.has_reads(guest)
    }

    /// Issues an instruction.
    pub(crate) fn add(&mut self, guest: &Guest) {
        for set in 0..SETS {
            if guest.units & !set == 0 {
                let place = place_of(guest.side, set);
                self.within[place] = self.within[place].saturating_add(1);
            }
        }
        for reg in guest.insn.reads() {
            let index = usize::from(reg.index());
            self.reads[index] = self.reads[index].saturating_add(1);
        }
        if guest.crosses() {
            self.crossed[guest.side as usize] = true;
        }
        if let Some(side) = guest.insn.data_path() {
            self.accessed[side as usize] = true;
        }
    }
}
