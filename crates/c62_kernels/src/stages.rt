//! In which pass each task of an iteration is issued, where its cycle of the kernel is known.

use crate::edge::Edge;
use crate::graph::Graph;
use std::alloc::{AllocError, Global};

/// The least number of passes that hold so many cycles.
fn passes(cycles: i32, interval: u16) -> i32 {
    let whole = 0i32
        .saturating_sub(cycles)
        .div_euclid(i32::from(interval).max(1));
    0i32.saturating_sub(whole)
}

fn row_at(rows: &[u16], number: u16) -> i32 {
    i32::from(rows.get(usize::from(number)).copied().unwrap_or(0))
}

fn stage_at(stages: &[i32], number: u16) -> i32 {
    stages.get(usize::from(number)).copied().unwrap_or(0)
}

/// The first pass for the later task of a dependence.
fn least_stage(stages: &[i32], rows: &[u16], interval: u16, edge: &Edge) -> i32 {
    let cycles = edge
        .latency
        .saturating_add(row_at(rows, edge.from))
        .saturating_sub(row_at(rows, edge.to));
    stage_at(stages, edge.from)
        .saturating_add(passes(cycles, interval))
        .saturating_sub(edge.apart)
}

/// Moves tasks to later passes, as one dependence each asks. Answers whether some moved.
fn delay(graph: &Graph, rows: &[u16], interval: u16, stages: &mut [i32]) -> bool {
    let mut moved = false;
    for edge in &graph.edges {
        let least = least_stage(stages, rows, interval, edge);
        if let Some(stage) = stages.get_mut(usize::from(edge.to))
            && *stage < least
        {
            *stage = least;
            moved = true;
        }
    }
    moved
}

fn as_stages(alloc: Global, stages: &[i32]) -> Result<Vec<u16>, AllocError> {
    stages
        .iter()
        .map(|stage| u16::try_from(*stage).unwrap_or(u16::MAX))
        .collect(alloc)
}

/// The first pass in which each task can be issued, behind the first pass of its iteration. `None` where there is none.
///
/// # Errors
///
/// Where memory ran out.
pub(crate) fn stages_of(
    alloc: Global,
    graph: &Graph,
    rows: &[u16],
    interval: u16,
) -> Result<Option<Vec<u16>>, AllocError> {
    let mut stages = vec![in alloc; 0i32; graph.tasks.len()]?;
    for _ in 0..=graph.len() {
        if !delay(graph, rows, interval, &mut stages) {
            return Ok(Some(as_stages(alloc, &stages)?));
        }
    }
    Ok(None)
}
