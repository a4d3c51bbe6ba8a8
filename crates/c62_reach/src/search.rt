//! Which parts of a text are reached from one of them.

ghost use Rattle.std.specs.Prelude.{◌≡◌, ◌<◌, ◌^◌, ◌++◌, List, length, map, IsTrue, IfOk, OnOk};
ghost use Rattle.std.specs.List.{filter_map};
ghost use Rattle.std.specs.Option.{option_to_list};
ghost use Rattle.c62_reach.specs.PartRead.{part_read};
ghost use Rattle.c62_reach.specs.Index.{Indexes};
ghost use Rattle.c62_reach.specs.Part.{Part as PartOf};
ghost use Rattle.c62_reach.specs.Reach.{part_meant, leads_from, leads_of, Marks};

use crate::index::Index;
use crate::part::Part;
use c62_line::Label;
use std::alloc::{AllocError, Global};

/// What is found so far.
#[derive(Drop)]
struct Search {
    /// Of each part, whether it is reached.
    marks: Vec<bool>,
    /// The parts that are marked and wait to be looked at.
    waiting: Vec<usize>,
}

ghost use Rattle.c62_reach.specs.Search.{none_found, found_of, is_new, marked, all_marked};

fn push_named(leads: &mut Vec<usize>, named: Option<usize>) -> Result<(), AllocError>
    ensures { OnOk result (leads.new.items ≡ leads.old.items ++ option_to_list named) }
{
    if let Some(k) = named {
        leads.push(k)?;
    }
    Ok(())
}

/// Appends the number of the part that each of these names means in this file, where there is one.
fn push_all_named(
    leads: &mut Vec<usize>,
    index: &Index,
    file: usize,
    names: &[Label],
) -> Result<(), AllocError>
    ensures { (parts : List PartOf) → Indexes parts index.now
        → OnOk result (leads.new.items ≡ leads.old.items ++ filter_map (λ name. part_meant file name parts) names.now) }
{
    for name in names {
        push_named(leads, index.part_meant(file, name))?;
    }
    Ok(())
}

/// Appends the numbers of the parts to which this one, of this number, leads.
fn push_leads(
    leads: &mut Vec<usize>,
    index: &Index,
    j: usize,
    part: &Part,
) -> Result<(), AllocError>
    requires { j < 2 ^ 63 }
    ensures { (parts : List PartOf) → Indexes parts index.now
        → OnOk result (leads.new.items ≡ leads.old.items ++ leads_of parts j (part_read part.now)) }
{
    if part.runs_on {
        leads.push(j + 1)?;
    }
    push_all_named(leads, index, part.file, &part.names)
}

/// The numbers of the parts to which the part of this number leads.
fn leads_from(
    alloc: Global,
    parts: &[Part],
    index: &Index,
    j: usize,
) -> Result<Vec<usize>, AllocError>
    requires { Indexes (map part_read parts.now) index.now }
    ensures { IfOk result (λ leads. leads.items ≡ leads_from (map part_read parts.now) j) }
{
    let mut leads = Vec::new(alloc);
    if j < parts.len() {
        push_leads(&mut leads, index, j, &parts[j])?;
    }
    Ok(leads)
}

impl Search {
    fn new(alloc: Global, parts: usize) -> Result<Search, AllocError>
        ensures { IfOk result (λ search. found_of search ≡ none_found parts) }
    {
        Ok(Search {
            marks: vec![in alloc; false; parts]?,
            waiting: Vec::new(alloc),
        })
    }

    fn is_new(&self, k: usize) -> bool
        ensures new { result ≡ is_new k (found_of self.now) }
        ensures within { IsTrue result → k < length self.now.marks.items }
    {
        k < self.marks.len() && !self.marks[k]
    }

    /// Marks a part that isn't marked.
    fn mark(&mut self, k: usize) -> Result<(), AllocError>
        ensures { OnOk result (found_of self.new ≡ marked k (found_of self.old)) }
    {
        if self.is_new(k) {
            self.marks[k] = true;
            self.waiting.push(k)?;
        }
        Ok(())
    }

    fn mark_all(&mut self, numbers: &[usize]) -> Result<(), AllocError>
        ensures { OnOk result (found_of self.new ≡ all_marked numbers.now (found_of self.old)) }
    {
        for k in numbers {
            self.mark(*k)?;
        }
        Ok(())
    }

    /// Marks the parts to which a part leads that waits no more.
    fn look_at(
        &mut self,
        alloc: Global,
        parts: &[Part],
        index: &Index,
        j: usize,
    ) -> Result<(), AllocError>
        requires { Indexes (map part_read parts.now) index.now }
        ensures { OnOk result (found_of self.new ≡ all_marked (leads_from (map part_read parts.now) j) (found_of self.old)) }
    {
        let leads = leads_from(alloc, parts, index, j)?;
        self.mark_all(&leads)
    }
}

/// Of each part, whether it is reached from the part of this number.
pub(crate) fn reached_from(
    alloc: Global,
    parts: &[Part],
    index: &Index,
    first: usize,
) -> Result<Vec<bool>, AllocError>
    requires indexed { Indexes (map part_read parts.now) index.now }
    requires first { first < length parts.now }
    ensures { IfOk result (λ marks. Marks (map part_read parts.now) first marks.items) }
{
    let mut search = Search::new(alloc, parts.len())?;
    search.mark(first)?;
    while let Some(j) = search.waiting.pop() {
        search.look_at(alloc, parts, index, j)?;
    }
    Ok(search.marks)
}
