//! Words that are instructions.

ghost use Rattle.std.specs.Prelude.{◌≡◌};
ghost use Rattle.std.specs.List.{list_any};
ghost use Rattle.c62_token.specs.Number.{spells};
ghost use Rattle.c62_token.specs.Token.{words_left};
ghost use Rattle.c62_adopt_spell.specs.Operation.{bare_names, begins_operation, begins_instruction};

use crate::statement::names_branch;
use c62_line::first_mnemonic;
use c62_op::InstructionSet;
use c62_token::Tokens;
use c62_token::number::spells;

/// What is an instruction by itself on this family of processors, though c62 doesn't know it.
const BARE: [&[u8]; 9] = [
    b"IDLE",
    b"DINT",
    b"RINT",
    b"SWE",
    b"SWENR",
    b"SPKERNEL",
    b"SPKERNELR",
    b"SPMASK",
    b"SPMASKR",
];

fn is_among(names: &[&[u8]], word: &[u8]) -> bool
    ensures { result ≡ list_any (λ name. spells name.now word.now) names.now }
{
    names.iter().any(|name| spells(name, word))
}

fn is_bare(word: &[u8]) -> bool
    ensures { result ≡ list_any (λ name. spells name word.now) bare_names }
{
    is_among(&BARE, word)
}

/// Whether the first word names an operation or a pseudo-operation.
fn names_operation(isa: InstructionSet, words: Tokens<'_>) -> bool
    ensures { result ≡ begins_operation isa (words_left words.entry) }
{
    first_mnemonic(isa, words).is_some()
}

/// Whether the first word is an instruction, and so neither a label without a colon nor a name.
pub(crate) fn begins_instruction(isa: InstructionSet, words: Tokens<'_>) -> bool
    ensures { result ≡ begins_instruction isa (words_left words.entry) }
{
    match words.peek() {
        None => false,
        Some(word) => names_operation(isa, words) || names_branch(word) || is_bare(word),
    }
}
