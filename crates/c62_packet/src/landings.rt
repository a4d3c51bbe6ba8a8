//! Where instructions land, in a cycle and those next to it.

ghost use Rattle.std.specs.Prelude.{◌≡◌, ◌||◌, ◌<◌, ◌∷◌, [], ℕ, All, false};
ghost use Rattle.c62_op.specs.declared.register.Reg.{Reg as Register};
ghost use Rattle.c62_op.specs.Takes.{same_reg};
ghost use Rattle.c62_packet.specs.Landed.{has_register, landed, AreLandingsMore, shifted, AreShifted};

use c62_insn::Reg;

/// A set of registers, a bit for each, with one more.
#[tactic(auto, using(crate::proofs::LandingSets::with_one))]
fn with_register(regs: u32, reg: Reg) -> u32
    ensures { (other : Register) → has_register result other ≡ (has_register regs other || same_reg reg other) }
{
    regs | 1 << reg.index()
}

/// The registers in which something lands, in a cycle and the four behind it.
#[derive(Clone, Copy)]
pub(crate) struct Landings {
    /// A set of registers for each cycle, with a bit for each register.
    cycles: [u32; 5],
}

impl Landings {
    /// Nothing lands.
    pub fn new() -> Landings
        ensures { (k : ℕ) (reg : Register) → k < 5 → landed result.cycles k reg ≡ false }
    {
        Landings { cycles: [0; 5] }
    }

    /// Whether something lands in the register of a write, so long after the first cycle.
    pub fn meet(&self, write: (Reg, u8)) -> bool
        requires { write.1 < 5 }
        ensures { result ≡ landed self.now.cycles write.1 write.0 }
    {
        self.cycles[usize::from(write.1)] >> write.0.index() & 1 == 1
    }

    /// The registers of the cycle that is so far behind another, of which the first is the gap behind it.
    fn behind(&self, cycles: u16, gap: u16) -> u32
        requires { cycles < 5 }
        ensures { result ≡ shifted self.now.cycles gap cycles }
    {
        if cycles < gap {
            0
        } else {
            self.cycles[usize::from(cycles - gap)]
        }
    }

    /// The landings from an earlier cycle on.
    pub fn from_earlier(&self, gap: u16) -> Landings
        ensures { AreShifted self.now.cycles gap result.cycles }
    {
        Landings {
            cycles: [
                self.behind(0, gap),
                self.behind(1, gap),
                self.behind(2, gap),
                self.behind(3, gap),
                self.behind(4, gap),
            ],
        }
    }

    /// A write more, of an instruction that is issued in the first cycle.
    fn add(&mut self, write: (Reg, u8))
        requires { write.1 < 5 }
        ensures { AreLandingsMore self.old.cycles self.new.cycles (write ∷ []) }
    {
        let at = usize::from(write.1);
        self.cycles[at] = with_register(self.cycles[at], write.0);
    }

    /// The writes more of an instruction that is issued in the first cycle.
    pub fn add_all(&mut self, writes: &[(Reg, u8)])
        requires { All (λ write. write.1 < 5) writes.now }
        ensures { AreLandingsMore self.old.cycles self.new.cycles writes.now }
    {
        for write in writes {
            self.add(*write);
        }
    }
}
