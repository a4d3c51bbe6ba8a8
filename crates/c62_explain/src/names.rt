//! Names that a text may spell, and names that it may not.

use crate::near::is_near;
use c62_insn::Op;
use c62_op::InstructionSet;
use c62_token::number::spells;

/// Instructions of the C62x that are left out (docs/MACHINE.md, "What is left out").
static LEFT_OUT: [&[u8]; 7] = [b"ADDU", b"SUBU", b"SAT", b"IDLE", b"MVC", b"IRP", b"NRP"];

/// Instructions of the C64x and the C67x that people try.
static OF_OTHERS: [&[u8]; 26] = [
    b"ADDSP", b"ADDDP", b"MPYSP", b"MPYDP", b"SUBSP", b"LDDW", b"STDW", b"LDNW", b"STNW", b"LDNDW",
    b"STNDW", b"DOTP2", b"DOTPU4", b"MPY2", b"MPYU4", b"AVG2", b"MAX2", b"MIN2", b"PACK2", b"ADD4",
    b"SUB4", b"BDEC", b"BPOS", b"ADDKPC", b"CALLP", b"SPLOOP",
];

/// Mnemonics that are no operation's name.
static PSEUDO: [&str; 7] = ["MV", "NEG", "NOT", "ZERO", "MVKL", "MVKH", "NOP"];

/// A shorter word is one letter off too many names.
const LEAST_WORD: usize = 2;

fn is_among(names: &[&[u8]], word: &[u8]) -> bool {
    names.iter().any(|name| spells(name, word))
}

/// Whether the full set alone has an operation of this name.
pub(crate) fn is_of_full_set(word: &[u8]) -> bool {
    Op::ALL.iter().any(|op| !op.is_in(InstructionSet::Core)
        && spells(op.mnemonic().as_bytes(), word))
}

/// Whether the C62x has an instruction of this name that is left out.
pub(crate) fn is_left_out(word: &[u8]) -> bool {
    is_among(&LEFT_OUT, word)
}

/// Whether this is an instruction of the C64x or the C67x, of those that people try.
pub(crate) fn is_of_others(word: &[u8]) -> bool {
    is_among(&OF_OTHERS, word)
}

/// The first mnemonic that the word is one letter off.
pub(crate) fn nearest_mnemonic(isa: InstructionSet, word: &[u8]) -> Option<&'static str> {
    if word.len() < LEAST_WORD {
        return None;
    }
    for name in PSEUDO {
        if is_near(name.as_bytes(), word) {
            return Some(name);
        }
    }
    for op in Op::ALL {
        if op.is_in(isa) && is_near(op.mnemonic().as_bytes(), word) {
            return Some(op.mnemonic());
        }
    }
    None
}
