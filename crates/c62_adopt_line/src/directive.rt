//! Directives that lay nothing down.

ghost use Rattle.std.specs.Prelude.{◌≡◌, take, codes};
ghost use Rattle.std.specs.List.{list_any};
ghost use Rattle.c62_token.specs.Token.{words_left};
ghost use Rattle.c62_token.specs.Number.{spells};
ghost use Rattle.c62_adopt_line.specs.Directive.{quiet_names, is_quiet, names_section, begins_in_text, is_of_text, lays_nothing};

use c62_token::Tokens;
use c62_token::number::spells;

/// What is told of a program for its debugger, its linker or its reader.
const QUIET: [&[u8]; 55] = [
    b".text",
    b".align",
    b".global",
    b".globl",
    b".def",
    b".ref",
    b".type",
    b".size",
    b".file",
    b".ident",
    b".loc",
    b".c6xabi_attribute",
    b".p2align",
    b".balign",
    b".weak",
    b".hidden",
    b".internal",
    b".protected",
    b".local",
    b".extern",
    b".comm",
    b".lcomm",
    b".scomm",
    b".nocmp",
    b".arch",
    b".endp",
    b".cantunwind",
    b".personality",
    b".personalityindex",
    b".title",
    b".version",
    b".asmfunc",
    b".endasmfunc",
    b".clink",
    b".retain",
    b".compiler_opts",
    b".stack",
    b".newblock",
    b".page",
    b".list",
    b".nolist",
    b".mlist",
    b".mnolist",
    b".length",
    b".width",
    b".tab",
    b".option",
    b".dwtag",
    b".dwattr",
    b".dwendtag",
    b".dwpsn",
    b".dwcfi",
    b".dwfde",
    b".dwcie",
    b".dwendentry",
];

fn is_among(names: &[&[u8]], word: &[u8]) -> bool
    ensures { result ≡ list_any (λ name. spells name.now word.now) names.now }
{
    names.iter().any(|name| spells(name, word))
}

fn is_listed(word: &[u8]) -> bool
    ensures { result ≡ list_any (λ name. spells name word.now) quiet_names }
{
    is_among(&QUIET, word)
}

/// Whether the word begins with `.cfi_`, as what is told of frames does.
#[tactic(auto, using(std::proofs::lemmas::List::take_min))]
fn tells_frames(word: &[u8]) -> bool
    ensures { result ≡ spells (codes ".cfi_") (take 5 word.now) }
{
    spells(b".cfi_", &word[..5.min(word.len())])
}

fn is_quiet(word: &[u8]) -> bool
    ensures { result ≡ is_quiet word.now }
{
    is_listed(word) || tells_frames(word)
}

pub fn names_section(word: &[u8]) -> bool
    ensures { result ≡ names_section word.now }
{
    spells(b".sect", word) || spells(b".section", word)
}

fn begins_in_text(words: Tokens<'_>) -> bool
    ensures { result ≡ begins_in_text (words_left words.entry) }
{
    match words.peek() {
        None => false,
        Some(word) => spells(b".text", word),
    }
}

/// Whether a section is named `.text`, or `.text` with more behind it, between quotes or without.
fn is_of_text(words: Tokens<'_>) -> bool
    ensures { result ≡ is_of_text (words_left words.entry) }
{
    match words.split() {
        None => false,
        Some((word, behind)) => {
            begins_in_text(words) || spells(b"\"", word) && begins_in_text(behind)
        }
    }
}

/// Whether a directive, its name before what stands behind that, lays nothing down.
pub fn lays_nothing(words: Tokens<'_>) -> bool
    ensures { result ≡ lays_nothing (words_left words.entry) }
{
    match words.split() {
        None => false,
        Some((name, behind)) => is_quiet(name) || names_section(name) && is_of_text(behind),
    }
}
