//! Names that stand for a number or a register.

ghost use Rattle.std.specs.Prelude.{◌≡◌, ◌||◌, option_map};
ghost use Rattle.std.specs.Str.{bytes_eq};
ghost use Rattle.c62_token.specs.Number.{is_label, register_of, spells};
ghost use Rattle.c62_token.specs.Token.{words_left};
ghost use Rattle.c62_adopt_spell.specs.Number.{plain_name, value_of};

use crate::number::{plain_name, value};
use crate::operation::begins_instruction;
use c62_insn::Reg;
use c62_line::Label;
use c62_op::InstructionSet;
use c62_token::number::{is_label, register, spells};
use c62_token::{Tokens, is_mark};

/// How often a text may set a name.
pub(crate) const MOST_NAMES: usize = 64;

/// What a name stands for.
#[derive(Clone, Copy)]
pub(crate) enum Value {
    Constant(i64),
    Register(Reg),
}

/// A name, and what it stands for below its line.
#[derive(Drop)]
pub(crate) struct Setting {
    name: Label,
    value: Value,
}

ghost use Rattle.c62_adopt_spell.specs.Names.{as_constant, as_register, value_set, value_named, value_said, may_stand, setting_to, sets, set_behind, set_before, setting_of};

impl Setting {
    /// What a word stands for, where it is this name.
    fn value_of(&self, word: &[u8]) -> Option<Value>
        ensures { result ≡ value_set self.now word.now }
    {
        if self.name.as_bytes() == word {
            Some(self.value)
        } else {
            None
        }
    }
}

/// What a word stands for below these settings.
pub(crate) fn value_named(names: &[Setting], word: &[u8]) -> Option<Value>
    ensures { result ≡ value_named names.now word.now }
{
    let mut found = None;
    let mut rest = names;
    while let [setting, behind @ ..] = rest {
        found = setting.value_of(word).or(found);
        rest = behind;
    }
    found
}

/// The number that a word is.
fn constant_said(word: &[u8]) -> Option<Value>
    ensures { result ≡ option_map as_constant (value_of word.now) }
{
    Some(Value::Constant(value(word)?))
}

/// The register that a word is.
fn register_said(word: &[u8]) -> Option<Value>
    ensures { result ≡ option_map as_register (register_of (plain_name word.now)) }
{
    Some(Value::Register(register(plain_name(word))?))
}

/// The number or the register that a word is, or that it stands for.
fn value_said(names: &[Setting], word: &[u8]) -> Option<Value>
    ensures { result ≡ value_said names.now word.now }
{
    if let Some(value) = constant_said(word) {
        return Some(value);
    }
    if let Some(value) = register_said(word) {
        return Some(value);
    }
    value_named(names, word)
}

/// Whether SP, DP and FP stand for no other register than they do without a setting.
fn keeps_register(name: &[u8], value: &[u8]) -> bool
    ensures { result ≡ (bytes_eq (plain_name name.now) name.now || spells (plain_name name.now) (plain_name value.now)) }
{
    let plain = plain_name(name);
    plain == name || spells(plain, plain_name(value))
}

/// The first word as the name of what another word says.
fn setting_to(
    isa: InstructionSet,
    names: &[Setting],
    name: Tokens<'_>,
    value: &[u8],
) -> Option<Setting>
    ensures { result ≡ setting_to isa names.now (words_left name.entry) value.now }
{
    let word = name.peek()?;
    if is_label(word) && !begins_instruction(isa, name) && keeps_register(word, value) {
        Some(Setting {
            name: Label::new(word),
            value: value_said(names, value)?,
        })
    } else {
        None
    }
}

fn sets(directive: &[u8]) -> bool
    ensures { result ≡ sets directive.now }
{
    spells(b".set", directive) || spells(b".equ", directive)
}

/// What words set that are a directive, two more and a comma between these.
fn set_behind(isa: InstructionSet, names: &[Setting], words: Tokens<'_>) -> Option<Setting>
    ensures { result ≡ set_behind isa names.now (words_left words.entry) }
{
    let (directive, from_one) = words.split()?;
    let (one, behind) = from_one.split()?;
    let (comma, from_other) = behind.split()?;
    let (other, behind) = from_other.split()?;
    if behind.peek().is_some() {
        return None;
    }
    if !is_mark(b',', comma) {
        return None;
    }
    if sets(directive) {
        setting_to(isa, names, from_one, other)
    } else if spells(b".asg", directive) {
        setting_to(isa, names, from_other, one)
    } else {
        None
    }
}

/// What words set that are a name, a directive and a value.
fn set_before(isa: InstructionSet, names: &[Setting], words: Tokens<'_>) -> Option<Setting>
    ensures { result ≡ set_before isa names.now (words_left words.entry) }
{
    let (_, behind) = words.split()?;
    let (directive, behind) = behind.split()?;
    let (value, behind) = behind.split()?;
    if behind.peek().is_some() || !sets(directive) {
        None
    } else {
        setting_to(isa, names, words, value)
    }
}

/// What a line's words set, whose first stands in the first column or doesn't.
pub(crate) fn setting_of(
    isa: InstructionSet,
    names: &[Setting],
    column: bool,
    words: Tokens<'_>,
) -> Option<Setting>
    ensures { result ≡ setting_of isa names.now column (words_left words.entry) }
{
    if MOST_NAMES <= names.len() {
        return None;
    }
    if let Some(setting) = set_behind(isa, names, words) {
        return Some(setting);
    }
    if column {
        set_before(isa, names, words)
    } else {
        None
    }
}
