//! The labels of a text.

ghost use Rattle.std.specs.Prelude.{◌≡◌, IfOk, OnOk};
ghost use Rattle.c62_listing_reader.specs.Named.{AddsFirst, HasFirstNumbers};

use crate::text::{content, first_line};
use c62_read::label_field;
use std::alloc::{AllocError, Global};
use std::collections::BTreeMap;

/// A text, in which the block that a label stands for is found fast.
#[derive(Drop)]
pub struct Names<'a> {
    pub text: &'a [u8],
    /// The number of each label's block, or 255 where it is greater.
    numbers: BTreeMap<&'a [u8], u8>,
    pub ghost found: { HasFirstNumbers numbers text.now },
}

/// Adds a label with the number of its block, where it isn't there.
fn put_first<'a>(
    numbers: &mut BTreeMap<&'a [u8], u8>,
    label: &'a [u8],
    number: usize,
) -> Result<(), AllocError>
    ensures { OnOk result (AddsFirst label.now number numbers.old numbers.new) }
{
    numbers.entry(label)?.or_insert(number.min(255) as u8);
    Ok(())
}

/// The number of each label where it stands first.
fn first_numbers<'a>(alloc: Global, text: &'a [u8]) -> Result<BTreeMap<&'a [u8], u8>, AllocError>
    ensures { IfOk result (λ numbers. HasFirstNumbers numbers text.now) }
{
    let mut numbers = BTreeMap::new(alloc);
    let mut rest = text;
    let mut number = 0;
    while let Some(cut) = first_line(rest) {
        let line = content(&cut);
        if let Some(label) = label_field(line) {
            put_first(&mut numbers, label, number)?;
        }
        number += usize::from(line.is_empty());
        rest = cut.rest;
    }
    Ok(numbers)
}

impl<'a> Names<'a> {
    ghost use Rattle.c62_read.specs.Program.{is_among};
    ghost use Rattle.c62_listing_reader.specs.Said.{labels_of, aim_by};
    ghost use Rattle.c62_listing_reader.specs.Reading.{entries_of};

    /// The labels of a text.
    ///
    /// # Errors
    ///
    /// `AllocError` where memory ran out.
    pub fn new(alloc: Global, text: &'a [u8]) -> Result<Names<'a>, AllocError>
        ensures { IfOk result (λ names. names.text.now ≡ text.now) }
    {
        let numbers = first_numbers(alloc, text)?;
        Ok(Names { text, numbers })
    }

    /// The number of the block that a branch to a label goes to, or 0 where the text doesn't have the label.
    #[tactic(auto, using(crate::proofs::NameLemmas::aimed_by))]
    pub fn number(&self, label: &[u8]) -> u8
        ensures { result ≡ aim_by (entries_of self.now) label.now }
    {
        self.numbers.get(label).copied().unwrap_or(0)
    }

    /// Whether the text has the label.
    pub fn has(&self, label: &[u8]) -> bool
        ensures { result ≡ is_among label.now (labels_of (entries_of self.now)) }
    {
        self.numbers.contains_key(label)
    }
}
