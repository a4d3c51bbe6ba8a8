//! The tasks of a kernel and the dependences between them.

ghost use Rattle.std.specs.Prelude.{◌≡◌, ◌++◌, IfOk, OnOk, length, min};
ghost use Rattle.c62_kernels.specs.Tasks.{entries_of};

use crate::edge::{Edge, edges_of};
use crate::task::Task;
use c62_pair::{RegSet, Uses};
use c62_read::SerialInsn;
use std::alloc::{AllocError, Global};

/// One end of a dependence.
#[derive(Clone, Copy)]
pub(crate) struct Link {
    /// The number of the other task.
    pub number: u16,
    /// The least number of cycles from the earlier to the later one.
    pub latency: i32,
    /// How many iterations lie between.
    pub apart: i32,
}

impl Link {
    /// The least number of cycles between both within an iteration, where passes are so far apart.
    pub(crate) fn within(self, interval: u16) -> i32 {
        self.latency
            .saturating_sub(i32::from(interval).saturating_mul(self.apart))
    }
}

/// From where cycles are counted.
#[derive(Clone, Copy, PartialEq, Eq, Debug)]
pub(crate) enum Way {
    /// From the first cycle of an iteration, and on.
    Forward,
    /// From the last one, and back.
    Backward,
}

/// The tasks of a kernel by number: the work, then the step of the counter, then the branch.
#[derive(Drop)]
pub struct Graph {
    pub tasks: Vec<Task>,
    pub(crate) edges: Vec<Edge>,
    /// What each waits for.
    needs: Vec<Vec<Link>>,
    /// What waits for each.
    followers: Vec<Vec<Link>>,
}

fn no_links(alloc: Global, count: usize) -> Result<Vec<Vec<Link>>, AllocError> {
    let mut all = Vec::with_capacity(alloc, count)?;
    for _ in 0..count {
        all.push(Vec::new(alloc))?;
    }
    Ok(all)
}

fn add(lists: &mut [Vec<Link>], at: u16, link: Link) -> Result<(), AllocError> {
    if let Some(list) = lists.get_mut(usize::from(at)) {
        list.push(link)?;
    }
    Ok(())
}

/// What these use.
fn uses_of(alloc: Global, entries: &[SerialInsn]) -> Result<Vec<Uses>, AllocError> {
    let mut uses = Vec::with_capacity(alloc, entries.len())?;
    for entry in entries {
        uses.push(Uses::new(entry.insn))?;
    }
    Ok(uses)
}

/// Appends a task for each of these.
fn push_tasks(tasks: &mut Vec<Task>, entries: &[SerialInsn]) -> Result<(), AllocError>
    ensures { OnOk result (entries_of tasks.new.items ≡ entries_of tasks.old.items ++ entries.now) }
{
    for entry in entries {
        tasks.push(Task::new(*entry))?;
    }
    Ok(())
}

impl Graph {
    fn with_edges(alloc: Global, tasks: Vec<Task>, edges: Vec<Edge>) -> Result<Graph, AllocError>
        ensures { IfOk result (λ graph. graph.tasks.items ≡ tasks.items) }
    {
        let mut needs = no_links(alloc, tasks.len())?;
        let mut followers = no_links(alloc, tasks.len())?;
        for edge in &edges {
            let Edge {
                from,
                to,
                latency,
                apart,
            } = *edge;
            add(
                &mut needs,
                to,
                Link {
                    number: from,
                    latency,
                    apart,
                },
            )?;
            add(
                &mut followers,
                from,
                Link {
                    number: to,
                    latency,
                    apart,
                },
            )?;
        }
        Ok(Graph {
            tasks,
            edges,
            needs,
            followers,
        })
    }

    /// The work of an iteration, then what depends on nothing, each a task in this order, with the dependences of so many iterations.
    /// Loads and stores from two of these bases need no order in two of them.
    ///
    /// # Errors
    ///
    /// Where memory ran out.
    pub fn new(
        alloc: Global,
        work: &[SerialInsn],
        others: &[SerialInsn],
        bases: RegSet,
        iterations: i32,
    ) -> Result<Graph, AllocError>
        ensures { IfOk result (λ graph. entries_of graph.tasks.items ≡ work.now ++ others.now) }
    {
        let uses = uses_of(alloc, work)?;
        let edges = edges_of(alloc, &uses, bases, iterations)?;
        let mut tasks = Vec::new(alloc);
        push_tasks(&mut tasks, work)?;
        push_tasks(&mut tasks, others)?;
        Graph::with_edges(alloc, tasks, edges)
    }

    /// How many tasks there are, as far as 65,535.
    pub fn len(&self) -> u16
        ensures { result ≡ min 65535 (length self.now.tasks.items) }
    {
        u16::try_from(self.tasks.len()).unwrap_or(u16::MAX)
    }

    /// What comes before a task, on this way.
    pub(crate) fn before(&self, way: Way, number: u16) -> &[Link] {
        let lists = match way {
            Way::Forward => &self.needs,
            Way::Backward => &self.followers,
        };
        match lists.get(usize::from(number)) {
            Some(list) => list,
            None => &[],
        }
    }

    /// What comes behind it.
    pub(crate) fn behind(&self, way: Way, number: u16) -> &[Link] {
        let other = match way {
            Way::Forward => Way::Backward,
            Way::Backward => Way::Forward,
        };
        self.before(other, number)
    }
}
