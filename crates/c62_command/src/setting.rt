//! The settings of the command line (docs/REPORT.md).

ghost use Rattle.std.specs.Prelude.{◌≡◌, ◌+◌, ◌≤◌, ◌==◌, ◌<◌, ◌/◌, ℕ, map, length, option_and_then, Some, IfOk, IfErr};
ghost use Rattle.std.specs.List.{position};
ghost use Rattle.c62_command.specs.declared.setting.SettingError.TheVariants.{Memory};
ghost use Rattle.c62_command.specs.Settings.{Adds, AreSettings, IsParted, IsBadAmong, address_of, place_behind, place_of, base_after, base_among, base_at, base_in, base_of, base_said, base_setting, is_base, bytes_in, cells, holds, form_named, is_whole, length_in, length_of, address_in, memory_settings, named_setting, parts, place_at, place_in, one, dump_setting, dumped, extent_in, print_as, print_setting, printed, register_setting, spans, set_at, settings_at, settings_in, size_named, value_of};

use c62_op::{Reg, word_of};
use c62_token::number::{number, register};
use std::alloc::{AllocError, AllocFailed, Global};

/// The last address at which memory can begin.
const LAST_BASE: u32 = 0xffff_0000;

/// What is set before a run: a register, where memory begins, or memory at a place that lies on the size of what is put there, below
/// 65,536. Or what is printed below its report or written to files, which sets nothing. A place is so many bytes behind the address
/// at which memory begins.
#[derive(Clone, Copy, Debug, PartialEq, Eq)]
pub enum Setting {
    Register(Reg, u32),
    /// A byte is the low eight bits of the value.
    Byte(u32, u32),
    /// A half is the low sixteen bits of the value.
    Half(u32, u32),
    Word(u32, u32),
    Print(Print),
    Dump(Dump),
    /// Memory begins at this address, a multiple of 4 from which it ends by 2^32.
    Base(u32),
}

/// Values in memory that are printed below a report, one behind the other. Those that words ask for lie below 65,536, each on its
/// size.
#[derive(Clone, Copy, Debug, PartialEq, Eq)]
pub struct Print {
    /// The place of the first value.
    pub place: u32,
    /// How many values are printed.
    pub count: u32,
    pub size: Size,
    /// Whether they are printed as signed decimals, and not as hexadecimal digits.
    pub signed: bool,
}

/// Bytes of memory that are written to a file at the end of a run, one behind the other. Those that words ask for lie below 65,536.
#[derive(Clone, Copy, Debug, PartialEq, Eq)]
pub struct Dump {
    /// The place of the first byte.
    pub place: u32,
    /// How many bytes are written.
    pub count: u32,
}

/// How much of memory a value takes.
#[derive(Clone, Copy, Debug, PartialEq, Eq)]
pub enum Size {
    Byte,
    Half,
    Word,
}

/// Why words are no settings.
#[derive(Debug, Drop)]
pub enum SettingError {
    Memory,
    /// The word with this number, from 1, is no setting, and those before it are.
    Bad(usize),
}

impl From<AllocError> for SettingError {
    ghost from_gives = { λ _ error. error ≡ Memory };

    fn from(_error: AllocError) -> SettingError {
        SettingError::Memory
    }
}

impl Size {
    /// How many bytes a value takes.
    pub fn bytes(self) -> u8
        ensures { result ≡ bytes_in self }
    {
        match self {
            Size::Byte => 1,
            Size::Half => 2,
            Size::Word => 4,
        }
    }

    /// Whether the place lies in memory, and on this size.
    fn holds(self, place: u32) -> bool
        ensures { result ≡ holds self place }
    {
        place <= 65_535
            && match self {
                Size::Byte => true,
                Size::Half => place % 2 == 0,
                Size::Word => place % 4 == 0,
            }
    }

    /// Whether so many bytes are values of this size.
    fn is_whole(self, length: u32) -> bool
        ensures { result ≡ is_whole self length }
    {
        match self {
            Size::Byte => true,
            Size::Half => length % 2 == 0,
            Size::Word => length % 4 == 0,
        }
    }

    /// How many values of this size so many bytes are.
    fn count_in(self, length: u32) -> u32
        ensures { result ≡ length / bytes_in self }
    {
        match self {
            Size::Byte => length,
            Size::Half => length / 2,
            Size::Word => length / 4,
        }
    }

    /// Puts the value at this place.
    fn set(self, place: u32, value: u32) -> Setting
        ensures { result ≡ set_at self place value }
    {
        match self {
            Size::Byte => Setting::Byte(place, value),
            Size::Half => Setting::Half(place, value),
            Size::Word => Setting::Word(place, value),
        }
    }
}

/// The number as an address, where it is one.
fn address_of(number: i64) -> Option<u32>
    ensures { result ≡ address_of number }
{
    if 0 <= number && number <= 0xffff_ffff {
        Some(number as u32)
    } else {
        None
    }
}

/// The place of an address in memory that begins at this base, where it lies in it.
fn place_behind(base: u32, address: u32) -> Option<u32>
    ensures { result ≡ place_behind base address }
{
    if base <= address && address - base <= 65_535 {
        Some(address - base)
    } else {
        None
    }
}

/// The same of the address that a number is.
fn place_of(base: u32, number: i64) -> Option<u32>
    ensures { result ≡ place_of base number }
{
    place_behind(base, address_of(number)?)
}

/// The number that a text says, modulo 2^32.
fn value_of(text: &[u8]) -> Option<u32>
    ensures { result ≡ value_of text.now }
{
    Some(word_of(number(text)?))
}

/// The size of this name.
fn size_named(name: &[u8]) -> Option<Size>
    ensures { result ≡ size_named name.now }
{
    if name == b"b".as_slice() {
        Some(Size::Byte)
    } else if name == b"h".as_slice() {
        Some(Size::Half)
    } else {
        None
    }
}

/// The place of the address that a text says, with this size.
fn place_at(base: u32, text: &[u8], size: Size) -> Option<(u32, Size)>
    ensures { result ≡ place_at base text.now size }
{
    Some((place_of(base, number(text)?)?, size))
}

/// The index of the first colon.
fn colon(text: &[u8]) -> Option<usize>
    ensures { result ≡ position (λ b. b == 58) text.now }
{
    text.iter().position(|b| *b == b':')
}

/// What stands behind the `@` of a setting: the place of an address in memory that begins at this base, and the size behind a colon, or
/// that of words. None where it is no address or no size.
#[tactic(auto, unfolding(crate::specs::Settings::place_in))]
pub fn place_in(base: u32, text: &[u8]) -> Option<(u32, Size)>
    ensures { result ≡ place_in base text.now }
{
    match colon(text) {
        None => place_at(base, text, Size::Word),
        Some(colon) => place_at(base, &text[..colon], size_named(&text[colon + 1..])?),
    }
}

/// The index of the first comma.
fn comma(text: &[u8]) -> Option<usize>
    ensures { result ≡ position (λ b. b == 44) text.now }
{
    text.iter().position(|b| *b == b',')
}

/// What stands before the first comma, and what stands behind it where there is one.
pub fn first_part(text: &[u8]) -> (&[u8], Option<&[u8]>)
    ensures { IsParted text.now result.0.now result.1 }
{
    match comma(text) {
        Some(comma) => (&text[..comma], Some(&text[comma + 1..])),
        None => (text, None),
    }
}

/// Adds the values that a text says between its commas, one behind the other from a place on. Answers whether all are some.
fn push_cells(
    settings: &mut Vec<Setting>,
    size: Size,
    place: u32,
    text: &[u8],
) -> Result<bool, AllocError>
    ensures { IfOk result (Adds (cells size place (parts text.now)) settings.old.items settings.new.items) }
{
    let mut place = place;
    let mut rest = text;
    while size.holds(place) {
        let (part, behind) = first_part(rest);
        let Some(value) = value_of(part) else {
            return Ok(false);
        };
        settings.push(size.set(place, value))?;
        let Some(behind) = behind else {
            return Ok(true);
        };
        rest = behind;
        place += u32::from(size.bytes());
    }
    Ok(false)
}

/// The setting of the register of this name.
fn register_setting(name: &[u8], text: &[u8]) -> Option<Setting>
    ensures { result ≡ register_setting name.now text.now }
{
    let reg = register(name)?;
    Some(Setting::Register(reg, value_of(text)?))
}

/// The number of bytes that a number is, where there may be so many.
fn length_of(number: i64) -> Option<u32>
    ensures { result ≡ length_of number }
{
    if 1 <= number && number <= 65_536 {
        Some(number as u32)
    } else {
        None
    }
}

/// The place of the address that a text says.
fn address_in(base: u32, text: &[u8]) -> Option<u32>
    ensures { result ≡ address_in base text.now }
{
    place_of(base, number(text)?)
}

/// The number of bytes that a text says.
fn length_in(text: &[u8]) -> Option<u32>
    ensures { result ≡ length_in text.now }
{
    length_of(number(text)?)
}

/// The index of the first plus.
fn plus(text: &[u8]) -> Option<usize>
    ensures { result ≡ position (λ b. b == 43) text.now }
{
    text.iter().position(|b| *b == b'+')
}

/// Whether so many bytes from a place on lie in memory, and are values of this size.
fn spans(size: Size, place: u32, length: u32) -> bool
    ensures { result ≡ spans size place length }
{
    size.holds(place) && size.is_whole(length) && u64::from(place) + u64::from(length) <= 65_536
}

/// The values of so many bytes from a place on.
fn printed(place: u32, length: u32, size: Size, signed: bool) -> Option<Setting>
    ensures { result ≡ printed place length size signed }
{
    if spans(size, place, length) {
        Some(Setting::Print(Print {
            place,
            count: size.count_in(length),
            size,
            signed,
        }))
    } else {
        None
    }
}

/// The place of the address and the number of bytes that a text says as `ADDRESS+LENGTH`.
fn extent_in(base: u32, text: &[u8]) -> Option<(u32, u32)>
    ensures { result ≡ extent_in base text.now }
{
    let plus = plus(text)?;
    Some((
        address_in(base, &text[..plus])?,
        length_in(&text[plus + 1..])?,
    ))
}

/// The values that a text says as `ADDRESS+LENGTH`, of this size.
fn print_as(base: u32, text: &[u8], size: Size, signed: bool) -> Option<Setting>
    ensures { result ≡ print_as base text.now size signed }
{
    let (place, length) = extent_in(base, text)?;
    printed(place, length, size, signed)
}

/// The size of values of this name, and whether they are printed as signed decimals.
fn form_named(name: &[u8]) -> Option<(Size, bool)>
    ensures { result ≡ form_named name.now }
{
    if name == b"h".as_slice() {
        Some((Size::Half, false))
    } else if name == b"b".as_slice() {
        Some((Size::Byte, false))
    } else if name == b"d".as_slice() {
        Some((Size::Word, true))
    } else if name == b"hd".as_slice() {
        Some((Size::Half, true))
    } else if name == b"bd".as_slice() {
        Some((Size::Byte, true))
    } else {
        None
    }
}

/// The values that a text says: `ADDRESS+LENGTH`, and their form behind a colon, or words.
#[tactic(auto, unfolding(crate::specs::Settings::print_setting))]
fn print_setting(base: u32, text: &[u8]) -> Option<Setting>
    ensures { result ≡ print_setting base text.now }
{
    match colon(text) {
        None => print_as(base, text, Size::Word, false),
        Some(colon) => {
            let (size, signed) = form_named(&text[colon + 1..])?;
            print_as(base, &text[..colon], size, signed)
        }
    }
}

/// So many bytes from a place on, which go to a file.
fn dumped(place: u32, length: u32) -> Option<Setting>
    ensures { result ≡ dumped place length }
{
    if spans(Size::Byte, place, length) {
        Some(Setting::Dump(Dump {
            place,
            count: length,
        }))
    } else {
        None
    }
}

/// The bytes that a text says as `ADDRESS+LENGTH`, which go to a file.
fn dump_setting(base: u32, text: &[u8]) -> Option<Setting>
    ensures { result ≡ dump_setting base text.now }
{
    let (place, length) = extent_in(base, text)?;
    dumped(place, length)
}

/// Whether memory can begin at this address: a multiple of 4, from which 65,536 bytes end by 2^32.
fn is_base(address: u32) -> bool
    ensures { result ≡ is_base address }
{
    address <= LAST_BASE && address % 4 == 0
}

/// The address, where memory can begin there.
fn base_at(address: u32) -> Option<u32>
    ensures { result ≡ base_at address }
{
    if is_base(address) {
        Some(address)
    } else {
        None
    }
}

/// The same of the address that a number is.
fn base_of(number: i64) -> Option<u32>
    ensures { result ≡ base_of number }
{
    base_at(address_of(number)?)
}

/// The address that a text says memory begins at.
fn base_setting(text: &[u8]) -> Option<Setting>
    ensures { result ≡ base_setting text.now }
{
    Some(Setting::Base(base_of(number(text)?)?))
}

/// What this text says of a name: what is printed, what goes to a file, where memory begins, or the value of a register.
fn named_setting(base: u32, name: &[u8], text: &[u8]) -> Option<Setting>
    ensures { result ≡ named_setting base name.now text.now }
{
    if name == b"print".as_slice() {
        print_setting(base, text)
    } else if name == b"dump".as_slice() {
        dump_setting(base, text)
    } else if name == b"base".as_slice() {
        base_setting(text)
    } else {
        register_setting(name, text)
    }
}

/// Adds what this text says of a name, where it says something.
fn push_named(
    settings: &mut Vec<Setting>,
    base: u32,
    name: &[u8],
    text: &[u8],
) -> Result<bool, AllocError>
    ensures { IfOk result (Adds (one (named_setting base name.now text.now)) settings.old.items settings.new.items) }
{
    match named_setting(base, name, text) {
        Some(setting) => {
            settings.push(setting)?;
            Ok(true)
        }
        None => Ok(false),
    }
}

/// Adds what is set in memory, where that is something.
fn push_memory(
    settings: &mut Vec<Setting>,
    base: u32,
    name: &[u8],
    text: &[u8],
) -> Result<bool, AllocError>
    ensures { IfOk result (Adds (memory_settings base name.now text.now) settings.old.items settings.new.items) }
{
    match place_in(base, name) {
        Some((place, size)) => push_cells(settings, size, place, text),
        None => Ok(false),
    }
}

/// Adds what is set where this text is put into a register or, behind an `@`, into memory, or what is printed or goes to a file, or
/// where memory begins.
#[tactic(auto, unfolding(crate::specs::Settings::settings_at))]
fn push_settings_at(
    settings: &mut Vec<Setting>,
    base: u32,
    name: &[u8],
    text: &[u8],
) -> Result<bool, AllocError>
    ensures { IfOk result (Adds (settings_at base name.now text.now) settings.old.items settings.new.items) }
{
    match name.strip_prefix(b"@") {
        Some(place) => push_memory(settings, base, place, text),
        None => push_named(settings, base, name, text),
    }
}

/// The index of the first `=`, which parts a setting into its place and its values.
pub fn equals_sign(text: &[u8]) -> Option<usize>
    ensures { result ≡ position (λ b. b == 61) text.now }
{
    text.iter().position(|b| *b == b'=')
}

/// Adds the settings that a word says: `REG=NUMBER`, `@ADDRESS=NUMBER,..`, `@ADDRESS:h=NUMBER,..`, `@ADDRESS:b=NUMBER,..`,
/// `print=ADDRESS+LENGTH`, `dump=ADDRESS+LENGTH` or `base=ADDRESS`, where memory begins at this base. Answers whether it says some.
#[tactic(auto, unfolding(crate::specs::Settings::settings_in))]
fn push_word(settings: &mut Vec<Setting>, base: u32, text: &[u8]) -> Result<bool, AllocError>
    ensures { IfOk result (Adds (settings_in base text.now) settings.old.items settings.new.items) }
{
    match equals_sign(text) {
        Some(equals) => push_settings_at(settings, base, &text[..equals], &text[equals + 1..]),
        None => Ok(false),
    }
}

/// The address that this text says of a name memory begins at, where it says one.
fn base_said(name: &[u8], text: &[u8]) -> Option<u32>
    ensures { result ≡ base_said name.now text.now }
{
    if name == b"base".as_slice() {
        base_of(number(text)?)
    } else {
        None
    }
}

/// The address that a word says memory begins at, where it says one.
#[tactic(auto, unfolding(crate::specs::Settings::base_in))]
fn base_in(text: &[u8]) -> Option<u32>
    ensures { result ≡ base_in text.now }
{
    match equals_sign(text) {
        Some(equals) => base_said(&text[..equals], &text[equals + 1..]),
        None => None,
    }
}

/// Where memory begins by this word, where it began at a base by those before it.
fn base_after(base: u32, text: &[u8]) -> u32
    ensures { result ≡ base_after base text.now }
{
    match base_in(text) {
        Some(said) => said,
        None => base,
    }
}

/// Where memory begins by these words: where the last says that says it, and otherwise at 0.
pub(crate) fn base_among(texts: &[&str]) -> u32
    ensures { result ≡ base_among (map (λ text. text.now) texts.now) }
{
    let mut base = 0;
    for text in texts {
        base = base_after(base, text.as_bytes());
    }
    base
}

/// The settings that the words say, in their order (docs/REPORT.md, "Settings"). Addresses are judged by where memory begins by all of
/// them.
///
/// # Errors
///
/// `Bad` with the number of the first word that is no setting, and `Memory` where memory ran out.
pub fn read_settings(alloc: Global, texts: &[&str]) -> Result<Vec<Setting>, SettingError>
    ensures ok { IfOk result (λ settings. AreSettings (map (λ text. text.now) texts.now) settings.items) }
    ensures err { IfErr result (IsBadAmong (map (λ text. text.now) texts.now)) }
{
    let base = base_among(texts);
    let mut settings = Vec::new(alloc);
    let mut number = 0;
    for text in texts {
        number += 1;
        if !push_word(&mut settings, base, text.as_bytes())? {
            return Err(SettingError::Bad(number));
        }
    }
    Ok(settings)
}
