//! Laws of the instruction set, as SPRU189 words them. The functions do nothing: what each ensures
//! is a law, proved of the definitions that all other contracts cite.

ghost use Rattle.std.specs.Prelude.{◌≡◌, ℕ, ◌<◌, ◌≤◌, ◌%◌, ◌^◌, ℤ, pos, negsuc, ◌≤ℤ◌, List, length, []};
ghost use Rattle.c62_op.specs.declared.register.Reg.{Reg as Register};
ghost use Rattle.c62_insn.specs.declared.insn.Insn.{Insn};
ghost use Rattle.c62_op.specs.declared.operands.Op.{Op as Operation};
ghost use Rattle.c62_op.specs.declared.operands.Op.TheVariants.{B as Branch};
ghost use Rattle.c62_insn.specs.Insn.{op_of, operand_reads, register_writes, reads_count};
ghost use Rattle.c62_insn.specs.Laws.{HasUnit, StandsOnOneSide, HasRisingDelays, WritesInTime, WritesBaseFirst, CrossesNotToD, WritesOwnSide, UsesItsPath, CrossesSecond, MultipliesByConstant, SubtractsByAdding};

/// Some unit takes every instruction: the written one, where one is written.
pub fn has_unit()
    ensures { (insn : Insn) → HasUnit insn }
{}

/// All units that take an instruction lie on the side that its operands decide.
pub fn stands_on_one_side()
    ensures { (insn : Insn) → StandsOnOneSide insn }
{}

/// An instruction reads at most three operands, so one register at most three times, and writes at
/// most two registers.
pub fn reads_and_writes_are_few()
    ensures reads { (insn : Insn) → length (operand_reads insn) ≤ 3 }
    ensures reads_of_one { (insn : Insn) (reg : Register) → reads_count reg insn ≤ 3 }
    ensures writes { (insn : Insn) → length (register_writes insn) ≤ 2 }
{}

/// Of an instruction's writes the later one has the greater delay, so they never land together.
pub fn has_rising_delays()
    ensures { (insn : Insn) → HasRisingDelays insn }
{}

/// Every write lands at most four cycles after the issue, and within the instruction's delay.
pub fn writes_in_time()
    ensures { (insn : Insn) → WritesInTime insn }
{}

/// A load that changes its base writes the base without delay, and then its destination.
pub fn writes_base_first()
    ensures { (insn : Insn) → WritesBaseFirst insn }
{}

/// A branch writes no register.
pub fn branch_writes_nothing()
    ensures { (insn : Insn) → op_of insn ≡ Branch → register_writes insn ≡ [] }
{}

/// Nothing crosses to .D.
pub fn crosses_not_to_d()
    ensures { (insn : Insn) → CrossesNotToD insn }
{}

/// What is no load writes registers of its unit's side alone.
pub fn writes_own_side()
    ensures { (insn : Insn) → WritesOwnSide insn }
{}

/// An access goes over the data path of the register that it loads or stores.
pub fn uses_its_path()
    ensures { (insn : Insn) → UsesItsPath insn }
{}

/// ADD of registers of both sides takes the crossed one as its second source, and not as its first.
pub fn add_crosses_second_source()
    ensures { (crossed own destination : Register) → CrossesSecond crossed own destination }
{}

/// MPY of a constant is the product with the constant as it is.
pub fn multiplies_by_constant()
    ensures { (k : ℤ) → negsuc 15 ≤ℤ k → k ≤ℤ pos 15 → MultipliesByConstant k }
{}

/// SUB of a constant is the sum with its negation.
pub fn subtracts_by_adding()
    ensures { (k : ℤ) → negsuc 15 ≤ℤ k → k ≤ℤ pos 31 → SubtractsByAdding k }
{}
