//! Instructions.

ghost use Rattle.std.specs.Prelude.{◌≡◌, ◌↔◌, IsOk, IfOk, IfErr, IfSome, IsTrue, Some, None};
ghost use Rattle.c62_insn.specs.Fault.{fault_in, form_fault};
ghost use Rattle.c62_op.specs.Takes.{is_written};

use crate::action::{Action, act, word};
use crate::effect::{Access, Effect, Inputs, Target};
use crate::fault::{FormFault, find_fault};
use crate::unit_set::{UnitSet, units_of};
use arrayvec::ArrayVec;
use c62_op::{Cond, InstructionSet, Offset, Op, Operands, Reg, Side, Unit, unit_takes, word_of};

/// An instruction: an operation with operands that some unit takes, a condition or none, and the
/// unit that was written, or none. It has no form fault.
#[derive(Clone, Copy, PartialEq, Eq, Debug)]
pub struct Insn {
    op: Op,
    operands: Operands,
    cond: Option<Cond>,
    unit: Option<Unit>,
    pub ghost well_formed: { form_fault op operands cond unit ≡ None },
}

fn is_same_condition(a: Option<Cond>, b: Option<Cond>) -> bool
    ensures { IsTrue result ↔ (a ≡ b) }
{
    match (a, b) {
        (Some(a), Some(b)) => a.is_same(&b),
        (None, None) => true,
        _ => false,
    }
}

fn is_same_unit(a: Option<Unit>, b: Option<Unit>) -> bool
    ensures { IsTrue result ↔ (a ≡ b) }
{
    match (a, b) {
        (Some(a), Some(b)) => a == b,
        (None, None) => true,
        _ => false,
    }
}

fn is_written(written: Option<Unit>, unit: Unit) -> bool
    ensures { result ≡ is_written written unit }
{
    match written {
        None => true,
        Some(written) => written == unit,
    }
}

impl Insn {
    ghost use Rattle.std.specs.Prelude.{ℕ, true, false, ◌==◌, ◌&&◌, length, is_some, [], if◌then◌else◌};
    ghost use Rattle.c62_insn.specs.Insn.{op_of, operands_of, cond_of, unit_of, register_writes, greatest_delay, aimed_operands, HasParts, IsSameInsn};
    ghost use Rattle.c62_op.specs.Takes.{takes, same_side};
    ghost use Rattle.c62_insn.specs.Stands.{may_stand};
    ghost use Rattle.c62_insn.specs.UnitSet.{unit_in};
    ghost use Rattle.c62_op.specs.declared.register.Unit.{Unit as FunctionalUnit};
    ghost use Rattle.arrayvec.specs.ArrayVec.{array_vec_len};
    ghost use Rattle.c62_op.specs.Meaning.{loaded_of};
    ghost use Rattle.c62_insn.specs.Effect.{runs_of, values_of, access_of, target_of};
    ghost use Rattle.c62_insn.specs.Action.{word_at, runs_with, values_where, access_where, target_where, IsActionOf};
    ghost use Rattle.c62_op.specs.Shape.{reads_of, writes_of, delay_of, data_path_of, crosses_to};

    /// The instruction of these parts, by all forms of the instruction table.
    ///
    /// # Errors
    ///
    /// The first of its form faults, in this order: `BadCondition` where the condition's register
    /// may be none; `ConstantRange` where a constant lies outside all ranges that the instruction
    /// table gives it; `TwoCrossed` where two sources lie on the side other than the destination's;
    /// `BadSide` where a register that no form lets cross, or the written unit, lies on the wrong
    /// side; `NoUnit` where no unit, or not the written one, takes the operands (`docs/MACHINE.md`,
    /// "Form faults").
    pub fn new(
        op: Op,
        operands: Operands,
        cond: Option<Cond>,
        unit: Option<Unit>,
    ) -> Result<Insn, FormFault>
        ensures made { IsOk result ↔ (form_fault op operands cond unit ≡ None) }
        ensures parts { IfOk result (HasParts op operands cond unit) }
        ensures fault { IfErr result (λ fault. form_fault op operands cond unit ≡ Some fault) }
    {
        Insn::new_in(InstructionSet::Full, op, operands, cond, unit)
    }

    /// The instruction of these parts, where the set has it.
    ///
    /// # Errors
    ///
    /// The first of its form faults by the forms of the set, in the order of [`Insn::new`].
    #[inline(always)]
    #[tactic(auto, using(crate::proofs::TakenLemmas::whole))]
    pub fn new_in(
        set: InstructionSet,
        op: Op,
        operands: Operands,
        cond: Option<Cond>,
        unit: Option<Unit>,
    ) -> Result<Insn, FormFault>
        ensures made { IsOk result ↔ (fault_in set op operands cond unit ≡ None) }
        ensures parts { IfOk result (HasParts op operands cond unit) }
        ensures fault { IfErr result (λ fault. fault_in set op operands cond unit ≡ Some fault) }
    {
        match find_fault(set, op, operands, cond, unit) {
            Some(fault) => Err(fault),
            None => Ok(Insn {
                op,
                operands,
                cond,
                unit,
            }),
        }
    }

    /// The operation.
    pub fn op(self) -> Op
        ensures { result ≡ op_of self }
    {
        self.op
    }

    /// The operands.
    pub fn operands(self) -> Operands
        ensures { result ≡ operands_of self }
    {
        self.operands
    }

    /// The condition, if there is one.
    pub fn cond(self) -> Option<Cond>
        ensures { result ≡ cond_of self }
    {
        self.cond
    }

    /// The unit that was written, if one was.
    pub fn unit(self) -> Option<Unit>
        ensures { result ≡ unit_of self }
    {
        self.unit
    }

    /// Whether both are one instruction: operation, operands, condition and written unit.
    #[tactic(auto, using(crate::proofs::SameLemmas::same_parts))]
    pub fn same(&self, other: &Insn) -> bool
        ensures { IsTrue result ↔ (self.now ≡ other.now) }
    {
        self.same_but_for_the_unit(other) && is_same_unit(self.unit, other.unit)
    }

    /// Whether both are the same instruction, whichever unit is written.
    pub fn same_but_for_the_unit(&self, other: &Insn) -> bool
        ensures { IsTrue result ↔ IsSameInsn self.now other.now }
    {
        self.op.is_same(other.op)
            && self.operands.is_same(&other.operands)
            && is_same_condition(self.cond, other.cond)
    }

    /// Whether a source lies on the side other than `unit`'s, and so comes to it over the cross path
    /// (SPRU189, "Register File Cross Paths"). Never so of a load, store or branch.
    pub fn crosses(self, unit: Unit) -> bool
        ensures { result ≡ crosses_to unit.side (operands_of self) }
    {
        self.operands.crosses_to(unit.side)
    }

    /// The registers that the operands read in the issue cycle, in the order of the text and a
    /// repeated one as often as it stands: for a store the source, the base, the offset; for MVKLH
    /// and ADDK the destination. The condition's register is none of them.
    pub fn reads(self) -> ArrayVec<Reg, 3>
        ensures { result.items ≡ reads_of (op_of self) (operands_of self) }
    {
        let mut reads = ArrayVec::new();
        match self.operands {
            Operands::Three(a, b, _) => {
                reads.push(a);
                reads.push(b);
            }
            Operands::ConstantFirst(_, a, _)
            | Operands::ConstantSecond(a, _, _)
            | Operands::Two(a, _)
            | Operands::Field { source: a, .. }
            | Operands::Register(a) => reads.push(a),
            Operands::Constant(_, d) => {
                if self.op.reads_destination() {
                    reads.push(d);
                }
            }
            Operands::Access {
                register: reg,
                base,
                offset,
                ..
            } => {
                if self.op.is_store() {
                    reads.push(reg);
                }
                reads.push(base);
                if let Offset::Register(offset) = offset {
                    reads.push(offset);
                }
            }
            Operands::Block(_) => {}
        }
        reads
    }

    /// The registers that are written, each with the delay of the write in cycles: a base that is
    /// changed, with delay 0, before a load's destination. The writes of an instruction that does
    /// not run are listed too.
    pub fn writes(self) -> ArrayVec<(Reg, u8), 2>
        ensures { result.items ≡ writes_of (op_of self) (operands_of self) }
    {
        let mut writes = ArrayVec::new();
        match self.operands {
            Operands::Three(_, _, d)
            | Operands::ConstantFirst(_, _, d)
            | Operands::ConstantSecond(_, _, d)
            | Operands::Two(_, d)
            | Operands::Field { destination: d, .. }
            | Operands::Constant(_, d) => writes.push((d, self.op.delay())),
            Operands::Access {
                register: reg,
                base,
                form,
                ..
            } => {
                if form.changes_base() {
                    writes.push((base, 0));
                }
                if self.op.is_load() {
                    writes.push((reg, self.op.delay()));
                }
            }
            Operands::Block(_) | Operands::Register(_) => {}
        }
        writes
    }

    /// The greatest delay of its writes, in cycles, and 0 where it writes nothing.
    pub fn greatest_delay(self) -> u8
        ensures { result ≡ greatest_delay (register_writes self) }
    {
        let mut greatest = 0;
        for write in self.writes().as_slice() {
            greatest = greatest.max(write.1);
        }
        greatest
    }

    /// The instruction with its branch, where it has one to a block, to the block of this number; any other as it is.
    pub fn aimed(self, number: u8) -> Insn
        ensures op { op_of result ≡ op_of self }
        ensures operands { operands_of result ≡ aimed_operands number (operands_of self) }
        ensures cond { cond_of result ≡ cond_of self }
        ensures unit { unit_of result ≡ unit_of self }
    {
        match self.operands {
            Operands::Block(_) => {
                let Ok(insn) = Insn::new(self.op, Operands::Block(number), self.cond, self.unit)
                else {
                    unreachable!()
                };
                insn
            }
            _ => self,
        }
    }

    /// The data path of a load or store, T1 as side A and T2 as side B: that of the file of the
    /// register that is loaded or stored (SPRU189, "Memory, Load, and Store Paths"). `None` for
    /// others.
    pub fn data_path(self) -> Option<Side>
        ensures { result ≡ data_path_of (operands_of self) }
    {
        match self.operands {
            Operands::Access { register: reg, .. } => Some(reg.side),
            _ => None,
        }
    }

    /// The delay slots of the result, in cycles (SPRU189, "Delay Slots").
    pub fn delay(self) -> u8
        ensures { result ≡ delay_of (op_of self) }
    {
        self.op.delay()
    }

    /// The units that take the operands, whichever unit was written (SPRU189, "Mapping Between
    /// Instructions and Functional Units").
    pub fn units(self) -> UnitSet
        ensures { (unit : FunctionalUnit) → unit_in result unit ≡ takes (op_of self) (operands_of self) unit }
    {
        units_of(self.op, self.operands)
    }

    /// The units of `side` that the instruction may stand on: those that take it, and only the written one where one was
    /// written.
    pub fn units_on(self, side: Side) -> UnitSet
        ensures { (unit : FunctionalUnit) → unit_in result unit ≡ (same_side unit.side side && may_stand self unit) }
    {
        let taking = units_of(self.op, self.operands).on_side(side);
        match self.unit {
            None => taking,
            Some(unit) => taking.only(unit),
        }
    }

    /// Whether the instruction may stand on `unit`: the unit takes it, and is the written one where
    /// one was written.
    pub fn may_stand(self, unit: Unit) -> bool
        ensures { result ≡ may_stand self unit }
    {
        is_written(self.unit, unit) && unit_takes(self.op, self.operands, unit)
    }

    /// The instruction with `unit` written, on which it may stand. Operation, operands and condition
    /// stay.
    #[tactic(auto, using(crate::proofs::InsnLemmas::faultless_standing))]
    pub fn on_unit(self, unit: Unit) -> Insn
        requires { IsTrue (may_stand self unit) }
        ensures op { op_of result ≡ op_of self }
        ensures operands { operands_of result ≡ operands_of self }
        ensures cond { cond_of result ≡ cond_of self }
        ensures unit { unit_of result ≡ Some unit }
    {
        Insn {
            op: self.op,
            operands: self.operands,
            cond: self.cond,
            unit: Some(unit),
        }
    }

    fn runs(self, cond: Option<u32>) -> bool
        ensures { result ≡ runs_of (cond_of self) cond }
    {
        match (self.cond, cond) {
            (Some(Cond { negated, .. }), Some(value)) => (value == 0) == negated,
            _ => true,
        }
    }

    fn values(self, reads: &[u32]) -> ArrayVec<u32, 2>
        requires { length reads.now ≡ length (reads_of (op_of self) (operands_of self)) }
        ensures { result.items ≡ values_of (op_of self) (operands_of self) reads.now }
    {
        let mut values = ArrayVec::new();
        match self.operands {
            Operands::Three(_, _, _) => values.push(self.op.result(reads[0], reads[1])),
            Operands::ConstantFirst(k, _, _) => values.push(self.op.result(word_of(k), reads[0])),
            Operands::ConstantSecond(_, k, _) => values.push(self.op.result(reads[0], word_of(k))),
            Operands::Two(_, _) => values.push(self.op.result(reads[0], 0)),
            Operands::Field {
                left: k,
                right: m,
                ..
            } => values.push(self.op.field(reads[0], word_of(k), word_of(m))),
            Operands::Constant(k, _) => {
                let old = if self.op.reads_destination() {
                    reads[0]
                } else {
                    0
                };
                values.push(self.op.result(word_of(k), old));
            }
            Operands::Access { form, offset, .. } => {
                if form.changes_base() {
                    values.push(self.op.base_after(form, offset, reads));
                }
            }
            Operands::Block(_) | Operands::Register(_) => {}
        }
        values
    }

    fn access(self, reads: &[u32]) -> Option<Access>
        requires { length reads.now ≡ length (reads_of (op_of self) (operands_of self)) }
        ensures { result ≡ access_of (op_of self) (operands_of self) reads.now }
    {
        match self.operands {
            Operands::Access { form, offset, .. } => {
                let after = self.op.base_after(form, offset, reads);
                Some(Access {
                    address: form.address(reads[self.op.base_index()], after),
                    size: self.op.size(),
                    value: if self.op.is_store() {
                        Some(self.op.low_bytes(reads[0]))
                    } else {
                        None
                    },
                })
            }
            _ => None,
        }
    }

    fn target(self, reads: &[u32]) -> Option<Target>
        requires { length reads.now ≡ length (reads_of (op_of self) (operands_of self)) }
        ensures { result ≡ target_of (operands_of self) reads.now }
    {
        match self.operands {
            Operands::Block(number) => Some(Target::Block(number)),
            Operands::Register(_) => Some(Target::Register(reads[0])),
            _ => None,
        }
    }

    /// What the instruction does with these inputs, which hold a value for each of
    /// [`Insn::reads`], and one for the condition exactly where there is a condition. Where the
    /// condition does not hold the effect is empty. Words are modulo 2^32 (SPRU189, "Individual
    /// Instruction Descriptions").
    pub fn apply(&self, inputs: &Inputs) -> Effect
        requires cond { is_some inputs.now.cond ≡ is_some (cond_of self.now) }
        requires reads { array_vec_len inputs.now.reads ≡ length (reads_of (op_of self.now) (operands_of self.now)) }
        ensures runs { result.runs ≡ runs_of (cond_of self.now) inputs.now.cond }
        ensures values { result.values.items ≡ values_where result.runs self.now inputs.now.reads.items }
        ensures access { result.access ≡ access_where result.runs self.now inputs.now.reads.items }
        ensures target { result.target ≡ target_where result.runs self.now inputs.now.reads.items }
    {
        if self.runs(inputs.cond) {
            let reads = inputs.reads.as_slice();
            Effect {
                runs: true,
                values: self.values(reads),
                access: self.access(reads),
                target: self.target(reads),
            }
        } else {
            Effect {
                runs: false,
                values: ArrayVec::new(),
                access: None,
                target: None,
            }
        }
    }

    /// What the instruction does where registers have these words, those of A0 to A15 and B0 to B15:
    /// [`Insn::apply`] to them, together with the registers that are written. `None` where its
    /// condition does not hold.
    #[inline(always)]
    pub fn action(&self, registers: &[u32; 32]) -> Option<Action>
        ensures runs { is_some result ≡ runs_with (word_at registers.now) (cond_of self.now) }
        ensures action { IfSome result (λ action. IsActionOf self.now (word_at registers.now) action) }
    {
        if let Some(Cond { reg, negated }) = self.cond
            && (word(registers, reg) == 0) != negated
        {
            return None;
        }
        Some(act(registers, self.op, &self.operands))
    }

    /// What a load writes to its destination, of the bytes that it read as a number: extended by
    /// the sign for LDB and LDH, and by zeros for the others.
    pub fn loaded(self, raw: u32) -> u32
        ensures { result ≡ loaded_of (op_of self) raw }
    {
        self.op.loaded(raw)
    }
}
