//! The parts of a text by their labels.

ghost use Rattle.std.specs.Prelude.{◌≡◌, ◌<◌, ℕ, List, map, length, IfOk, OnOk, IfSome};
ghost use Rattle.c62_reach.specs.PartRead.{part_read};
ghost use Rattle.c62_reach.specs.Reach.{part_in, part_meant, part_named};

use crate::part::Part;
use c62_line::Label;
use c62_rows::Key;
use indexmap::IndexMap;
use std::alloc::{AllocError, Global};
use std::hash::Hash;

/// The numbers of parts by their labels.
#[derive(Drop)]
pub(crate) struct Index {
    /// Of the first part that begins with a label.
    first: IndexMap<Key, usize>,
    /// Of the first part of a file that does, by the number of the file, too.
    own: IndexMap<(usize, Key), usize>,
}

ghost use Rattle.c62_reach.specs.Index.{Adds, Indexes, with_key};
ghost use Rattle.c62_reach.specs.Part.{Part as PartOf};

/// Adds a key of the part of this number, where no part above has it.
#[tactic(auto, using(crate::proofs::IndexLemmas::inserted))]
fn add_key<K: Eq + Hash + Drop>(
    numbers: &mut IndexMap<K, usize>,
    key: K,
    k: usize,
) -> Result<(), AllocError>
    ensures { OnOk result (numbers.new.entries ≡ with_key K.eq key k numbers.old.entries) }
{
    if numbers.contains_key(&key) {
        return Ok(());
    }
    numbers.insert(key, k)?;
    Ok(())
}

impl Index {
    /// Adds the label of the part of this number, where it has one.
    fn add(&mut self, k: usize, part: &Part) -> Result<(), AllocError>
        ensures { OnOk result (Adds k part.now.file part.now.label self.old self.new) }
    {
        let Some(label) = &part.label else {
            return Ok(());
        };
        add_key(&mut self.first, Key::new(label.copy()), k)?;
        add_key(&mut self.own, (part.file, Key::new(label.copy())), k)
    }

    /// Finds these parts.
    pub(crate) fn new(alloc: Global, parts: &[Part]) -> Result<Index, AllocError>
        ensures { IfOk result (Indexes (map part_read parts.now)) }
    {
        let mut index = Index {
            first: IndexMap::new(alloc),
            own: IndexMap::new(alloc),
        };
        for k in 0..parts.len() {
            index.add(k, &parts[k])?;
        }
        Ok(index)
    }

    /// The number of the first part that begins with this label.
    pub(crate) fn part_named(&self, name: &Label) -> Option<usize>
        ensures part { (parts : List PartOf) → Indexes parts self.now → result ≡ part_named name.now parts }
        ensures within { (parts : List PartOf) → Indexes parts self.now → IfSome result (λ k. k < length parts) }
    {
        self.first.get(&Key::new(name.copy())).copied()
    }

    /// The number of the first part of this file that does.
    fn part_in(&self, file: usize, name: &Label) -> Option<usize>
        ensures { (parts : List PartOf) → Indexes parts self.now → result ≡ part_in file name.now parts }
    {
        self.own.get(&(file, Key::new(name.copy()))).copied()
    }

    /// The number of the part that a name means in this file.
    pub(crate) fn part_meant(&self, file: usize, name: &Label) -> Option<usize>
        ensures { (parts : List PartOf) → Indexes parts self.now → result ≡ part_meant file name.now parts }
    {
        match self.part_in(file, name) {
            Some(k) => Some(k),
            None => self.part_named(name),
        }
    }
}
