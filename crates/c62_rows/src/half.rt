//! Rows with the words of labels.

ghost use Rattle.std.specs.Prelude.{◌≡◌, map, None};
ghost use Rattle.std.specs.Option.{option_copied};
ghost use Rattle.c62_op.specs.declared.operands.Operands.TheVariants.{Constant};
ghost use Rattle.c62_insn.specs.Fault.{form_fault};
ghost use Rattle.c62_insn.specs.Insn.{op_of, operands_of, cond_of, unit_of, HasParts};
ghost use Rattle.c62_line.specs.Line.{parts_of};
ghost use Rattle.c62_line.specs.Mnemonic.{signed_low_half, high_half};
ghost use Rattle.c62_rows.specs.Word.{word_of, half_of, with_half, with_word};
ghost use Rattle.c62_rows.specs.Worded.{IsWorded, AreInsnsWorded, IsRowWorded, AreWorded};
ghost use Rattle.c62_rows.specs.Rows.{row_read};

use crate::key::Key;
use crate::rows::Row;
use c62_insn::{Insn, Op, Operands, Reg};
use c62_line::Label;
use c62_op::word_of as word;
use c62_packet::Placed;
use indexmap::IndexMap;

/// The address of the first row (docs/EXEC.md, "Labels as words").
const FIRST_ADDRESS: i64 = 0x8000_0000;

/// How far the address of a row is from that of the next.
const ROW_BYTES: i64 = 32;

fn signed_low_half(k: i64) -> i64
    ensures { result ≡ signed_low_half k }
{
    i64::from(((word(k) & 0xffff) as u16).cast_signed())
}

fn high_half(k: i64) -> i64
    ensures { result ≡ high_half k }
{
    i64::from(word(k) >> 16)
}

/// The instruction with this constant.
fn with_constant(insn: Insn, k: i64, destination: Reg) -> Insn
    requires { form_fault (op_of insn) (Constant k destination) (cond_of insn) (unit_of insn) ≡ None }
    ensures { HasParts (op_of insn) (Constant k destination) (cond_of insn) (unit_of insn) result }
{
    let operands = Operands::Constant(k, destination);
    let Ok(made) = Insn::new(insn.op(), operands, insn.cond(), insn.unit()) else {
        unreachable!()
    };
    made
}

/// The half of a word that MVK and MVKLH have; other operations keep their constant.
fn half_of(op: Op, word: i64, k: i64) -> i64
    ensures { result ≡ half_of op word k }
{
    match op {
        Op::Mvk => signed_low_half(word),
        Op::Mvklh => high_half(word),
        _ => k,
    }
}

/// MVK and MVKLH with their half of a word as the constant.
#[tactic(auto, using(crate::proofs::Halves::half_formed))]
fn with_half(insn: Insn, word: i64) -> Insn
    ensures { parts_of result ≡ with_half word (parts_of insn) }
{
    match insn.operands() {
        Operands::Constant(k, d) => with_constant(insn, half_of(insn.op(), word, k), d),
        _ => insn,
    }
}

/// The word of a label: the address of its row.
fn word_of(label: &Label, labels: &IndexMap<Key, u32>) -> i64
    ensures { result ≡ word_of label.now labels.now.entries }
{
    let row = match labels.get(&Key::new(label.copy())) {
        Some(row) => *row,
        None => 0,
    };
    FIRST_ADDRESS + ROW_BYTES * i64::from(row)
}

/// The instruction with its half of the word of this label, where there is one.
fn with_word(insn: Insn, word: Option<&Label>, labels: &IndexMap<Key, u32>) -> Insn
    ensures { parts_of result ≡ with_word (option_copied word.entry) labels.now.entries (parts_of insn) }
{
    match word {
        None => insn,
        Some(label) => with_half(insn, word_of(label, labels)),
    }
}

/// The instruction with its half of the word of a label, where its line takes one.
fn worded(words: &IndexMap<u32, Label>, labels: &IndexMap<Key, u32>, placed: &Placed) -> Placed
    ensures { IsWorded words.now.entries labels.now.entries placed.now result }
{
    Placed {
        insn: with_word(placed.insn, words.get(&placed.line), labels),
        ..*placed
    }
}

fn set_in_row(words: &IndexMap<u32, Label>, labels: &IndexMap<Key, u32>, placed: &mut [Placed])
    ensures { AreInsnsWorded words.now.entries labels.now.entries placed.old placed.new }
{
    for one in placed.iter_mut() {
        *one = worded(words, labels, one);
    }
}

/// Each instruction whose line takes the word of a label gets its half of it.
pub(crate) fn set_words(words: &IndexMap<u32, Label>, labels: &IndexMap<Key, u32>, rows: &mut [Row])
    ensures { AreWorded words.now.entries labels.now.entries (map row_read rows.old) (map row_read rows.new) }
{
    for row in rows.iter_mut() {
        set_in_row(words, labels, &mut row.insns);
    }
}
