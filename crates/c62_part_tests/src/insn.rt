//! Instructions of operands that no line writes, the order in which registers are read and written, and effects of values.

use crate::expect::{equal, equal_in};
use arrayvec::ArrayVec;
use c62_insn::FormFault::{self, BadCondition, BadSide, ConstantRange, NoUnit, TwoCrossed};
use c62_insn::Side::{self, A, B};
use c62_insn::{Action, Effect, Inputs, Insn};
use c62_op::InstructionSet::{self, Core, Full};
use c62_op::Operands::{Block, Constant, ConstantFirst, ConstantSecond, Register, Three, Two};
use c62_op::{AddressForm, Cond, Offset, Op, Operands, Reg, Unit};
use c62_read::{What, read_insn};
use std::alloc::{AllocError, Global};
use std::process::Abort;
use std::test::Fail;

const A1: Reg = Reg { side: A, number: 1 };

const A2: Reg = Reg { side: A, number: 2 };

const A3: Reg = Reg { side: A, number: 3 };

const A4: Reg = Reg { side: A, number: 4 };

const B1: Reg = Reg { side: B, number: 1 };

const B3: Reg = Reg { side: B, number: 3 };

const B4: Reg = Reg { side: B, number: 4 };

const FIELD: Operands = Operands::Field {
    source: A1,
    left: 31,
    right: 0,
    destination: A2,
};

const ACCESS: Operands = Operands::Access {
    register: B1,
    base: A4,
    form: AddressForm::PreIncrement,
    offset: Offset::Register(A2),
};

/// Operands and a fault; and by the manual's tables the operations that take them in the core set, those that do in the full
/// set alone, and likewise those that refuse them for the fault. For all others they are NoUnit.
const ROWS: [(Operands, FormFault, &str); 15] = [
    (
        Three(A1, A2, A3),
        BadSide,
        "ADD SUB AND OR XOR ADD2 SUB2 CMPEQ CMPGT CMPLT CMPGTU CMPLTU SHL SHR SHRU \
        MPY MPYU MPYUS MPYSU MPYH MPYHU MPYHL MPYLH ADDAB ADDAH ADDAW | \
        EXT EXTU LMBD SUBC SADD SSUB SET CLR SSHL SMPY SMPYH SMPYHL SMPYLH \
        MPYLHU MPYHLU MPYHUS MPYHSU MPYHULS MPYHSLU MPYLUHS MPYLSHU SUBAB SUBAH SUBAW | | | ",
    ),
    (
        Three(B1, A2, A3),
        BadSide,
        "SUB SHL SHR SHRU | EXT EXTU SSUB SET CLR SSHL | \
        SUB2 ADDAB ADDAH ADDAW LMBD SUBC SUBAB SUBAH SUBAW | | ",
    ),
    (
        ConstantFirst(15, A2, A3),
        ConstantRange,
        "ADD SUB AND OR XOR CMPEQ CMPGT CMPLT MPY | CMPGTU CMPLTU MPYSU LMBD SADD SSUB | | | ",
    ),
    (
        ConstantFirst(31, A2, A3),
        ConstantRange,
        "ADD | | SUB AND OR XOR CMPEQ CMPGT CMPLT MPY | CMPGTU CMPLTU MPYSU LMBD SADD SSUB | ",
    ),
    (
        ConstantSecond(A1, 16, A3),
        ConstantRange,
        "SUB SHL SHR SHRU ADDAB ADDAH ADDAW | SSHL SUBAB SUBAH SUBAW | | | ",
    ),
    (
        ConstantSecond(A1, -15, A3),
        ConstantRange,
        "SUB | | SHL SHR SHRU ADDAB ADDAH ADDAW | SSHL SUBAB SUBAH SUBAW | ",
    ),
    (Two(A1, A2), BadSide, "ABS | NORM | | | "),
    (FIELD, ConstantRange, "EXT EXTU | SET CLR | | | "),
    (Constant(0, A1), ConstantRange, "MVK MVKLH ADDK | | | | "),
    (Constant(-1, A1), ConstantRange, "MVK ADDK | | MVKLH | | "),
    (
        Constant(65535, A1),
        ConstantRange,
        "MVKLH | | MVK ADDK | | ",
    ),
    (
        Constant(65536, A1),
        ConstantRange,
        "| | MVK MVKLH ADDK | | ",
    ),
    (
        ACCESS,
        BadSide,
        "LDB LDBU LDH LDHU LDW STB STH STW | | | | ",
    ),
    (Block(7), BadSide, "B | | | | "),
    (Register(B3), BadSide, "B | | | | "),
];

/// What is wrong with operands, or nothing.
fn fault_in(
    set: InstructionSet,
    op: Op,
    operands: Operands,
    unit: Option<Unit>,
) -> Option<FormFault> {
    Insn::new_in(set, op, operands, None, unit).err()
}

/// The operations of a row, with a bar behind each list.
fn told(alloc: Global, operands: Operands, fault: FormFault) -> Result<String, AllocError> {
    let mut told = String::new(alloc);
    for wanted in [None, Some(fault)] {
        for set in [Core, Full] {
            for op in Op::ALL {
                let is_in_core = fault_in(Core, op, operands, None) == wanted;
                if fault_in(set, op, operands, None) == wanted && (set == Core || !is_in_core) {
                    told.push_str(op.mnemonic())?;
                    told.push_str(" ")?;
                }
            }
            told.push_str("| ")?;
        }
    }
    Ok(told)
}

/// What is wrong on a unit: what is wrong without one, or else its side, or that it takes no such operands.
fn wanted_on(set: InstructionSet, op: Op, operands: Operands, unit: Unit) -> Option<FormFault> {
    match (Insn::new_in(set, op, operands, None, None), operands.side()) {
        (Ok(insn), _) if insn.units().has(unit) => None,
        (Err(fault), _) if fault != NoUnit => Some(fault),
        (_, Some(side)) if side != unit.side => Some(BadSide),
        _ => Some(NoUnit),
    }
}

#[test]
fn operands_of_all_kinds(rt: HostRuntime) -> Result<(), Fail> {
    for (operands, fault, ops) in &ROWS {
        let found = told(rt.alloc(), *operands, *fault)?;
        equal_in(&rt, operands, &found.as_str(), ops);
        for set in [Core, Full] {
            for op in Op::ALL {
                let found = fault_in(set, op, *operands, None);
                assert!(rt;
                    [None, Some(*fault), Some(NoUnit)].contains(&found),
                    "{op:?}"
                );
                for unit in Unit::ALL {
                    let found = fault_in(set, op, *operands, Some(unit));
                    let wanted = wanted_on(set, op, *operands, unit);
                    equal_in(&rt, &(op, unit), &found, &wanted);
                }
            }
        }
    }
    Ok(())
}

/// Lines with the registers that they read, those that they write with the delay of each, the data path, and the delay.
#[test]
fn reads_and_writes_in_order(rt: HostRuntime) -> Result<(), Fail> {
    let rows: [(&'static str, &[Reg], &[(Reg, u8)], Option<Side>, u8); 9] = [
        ("STW A1,*++A4[A1]", &[A1, A4, A1], &[(A4, 0)], Some(A), 0),
        ("LDW *A4++,B4", &[A4], &[(A4, 0), (B4, 4)], Some(B), 4),
        ("LDW *A4++,A4", &[A4], &[(A4, 0), (A4, 4)], Some(A), 4),
        ("ADD A1,A1,A1", &[A1, A1], &[(A1, 0)], None, 0),
        ("MPY A1,A2,A3", &[A1, A2], &[(A3, 1)], None, 1),
        ("MVK 1,A1", &[], &[(A1, 0)], None, 0),
        ("ADDK 1,A1", &[A1], &[(A1, 0)], None, 0),
        ("B B3", &[B3], &[], None, 5),
        ("B L", &[], &[], None, 5),
    ];
    for (line, reads, writes, path, delay) in rows {
        let (What::Insn(insn) | What::Jump(insn, _)) = read_insn(Core, line.as_bytes())?.what else {
            assert!(rt; false);
            return Ok(());
        };
        equal_in(&rt, &line, &insn.reads().as_slice(), &reads);
        equal_in(&rt, &line, &insn.writes().as_slice(), &writes);
        equal_in(&rt, &line, &insn.data_path(), &path);
        equal_in(&rt, &line, &insn.delay(), &delay);
    }
    for fault in [NoUnit, ConstantRange, TwoCrossed, BadSide, BadCondition] {
        let shown = format!(in rt.alloc(); "{fault}")?;
        equal(&rt, &shown.as_str(), &fault.name());
    }
    for (side, number, index) in [(A, 0, 0), (A, 15, 15), (B, 0, 16), (B, 15, 31)] {
        equal(&rt, &Reg { side, number }.index(), &index);
    }
    Ok(())
}

/// The effect that an action has.
fn effect_of(action: Option<Action>) -> Effect {
    let mut values = ArrayVec::new();
    let mut access = None;
    let mut target = None;
    match action {
        Some(Action::Write(_, value)) => values.push(value),
        Some(Action::Transfer(transfer)) => {
            access = Some(transfer.access);
            if let Some((_, base)) = transfer.base {
                values.push(base);
            }
        }
        Some(Action::Branch(aim)) => target = Some(aim),
        None => {}
    }
    Effect {
        runs: action.is_some(),
        values,
        access,
        target,
    }
}

/// What an instruction does with the values of its reads where registers have these words.
fn effect_from(rt: &impl Abort, insn: Insn, words: &[u32; 32]) -> Effect {
    let mut reads = ArrayVec::new();
    for reg in insn.reads().as_slice() {
        assert!(rt; !reads.is_full());
        reads.push(words[usize::from(reg.index())]);
    }
    equal(rt, &reads.len(), &insn.reads().len());
    match insn.cond() {
        Some(Cond { reg, .. }) => {
            let cond = Some(words[usize::from(reg.index())]);
            insn.apply(&Inputs { cond, reads })
        }
        None => insn.apply(&Inputs { cond: None, reads }),
    }
}

/// From values an instruction has the effect that its action on registers has.
#[test]
fn effects_of_values(rt: HostRuntime) -> Result<(), Fail> {
    let mut words = [0x100; 32];
    words[1] = 0xdaf0_905b;
    words[2] = 0x905e_c193;
    let mut made: u32 = 0;
    for negated in [false, true] {
        for cond in [None, Some(Cond { reg: A1, negated })] {
            for (operands, _, _) in &ROWS {
                for op in Op::ALL {
                    if let Ok(insn) = Insn::new(op, *operands, cond, None) {
                        let wanted = effect_of(insn.action(&words));
                        equal_in(&rt, &insn, &effect_from(&rt, insn, &words), &wanted);
                        made = made.saturating_add(1);
                    }
                }
            }
        }
    }
    equal(&rt, &made, &(4 * 110));
    Ok(())
}
