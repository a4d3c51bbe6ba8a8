//! The labels that branches of a text go to, by their numbers.

ghost use Rattle.std.specs.Prelude.{◌≡◌, IfOk, map};
ghost use Rattle.std.specs.Option.{option_copied};
ghost use Rattle.c62_packet.specs.Packets.{labels_of};
ghost use Rattle.c62_traced.specs.Names.{label_of, name_at};

use c62_line::Label;
use c62_packet::Packets;
use c62_rows::{Key, Rows};
use c62_token::number::is_label;
use indexmap::IndexMap;
use std::alloc::{AllocError, Global};

/// The label again, where there is one.
fn copied(label: Option<&Label>) -> Option<Label>
    ensures { result ≡ option_copied label.entry }
{
    match label {
        Some(label) => Some(label.copy()),
        None => None,
    }
}

/// The label that a key is.
fn label_of(key: &Key) -> Option<Label>
    ensures { result ≡ label_of key.now }
{
    let bytes = key.as_bytes();
    if is_label(bytes) {
        Some(Label::new(bytes))
    } else {
        None
    }
}

/// The first label that names a row.
fn name_at(labels: &IndexMap<Key, u32>, row: u32) -> Option<Label>
    ensures { result ≡ name_at labels.now.entries row }
{
    for (key, named) in labels.iter() {
        if *named == row {
            return label_of(key);
        }
    }
    None
}

/// The labels that branches of rows go to, by their numbers: of each the first that names the row.
///
/// # Errors
///
/// `AllocError` where memory ran out.
pub fn names_of_rows(
    alloc: Global,
    rows: &Rows,
    labels: &IndexMap<Key, u32>,
) -> Result<Vec<Option<Label>>, AllocError>
    ensures { IfOk result (λ names. names.items ≡ map (name_at labels.now.entries) rows.now.aims.items) }
{
    let mut names = Vec::new(alloc);
    for aim in &rows.aims {
        names.push(name_at(labels, *aim))?;
    }
    Ok(names)
}

/// The labels of packet blocks, by the numbers of these.
///
/// # Errors
///
/// `AllocError` where memory ran out.
pub fn names_of_packets(alloc: Global, packets: &Packets) -> Result<Vec<Option<Label>>, AllocError>
    ensures { IfOk result (λ names. names.items ≡ labels_of packets.now) }
{
    let mut names = Vec::new(alloc);
    for block in packets.blocks() {
        names.push(copied(block.label()))?;
    }
    Ok(names)
}
