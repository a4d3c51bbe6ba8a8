//! The dependences of a block, as a list.

ghost use Rattle.std.specs.Prelude.{◌≡◌, IfOk, All, length};
ghost use Rattle.c62_depend.specs.Plan.{insns_of};
ghost use Rattle.c62_refute.specs.Edge.{IsEdge};

use c62_depend::{Link, Plan};
use std::alloc::{AllocError, Global};

/// A dependence: one instruction comes so many cycles behind another at least.
#[derive(Clone, Copy)]
pub(crate) struct Edge {
    /// The number of the earlier instruction.
    pub(crate) from: u8,
    /// The number of the later one, and the least number of cycles between.
    pub(crate) link: Link,
}

/// The direct dependences of a block, those of a lower instruction first.
pub(crate) fn edges(alloc: Global, plan: &Plan) -> Result<Vec<Edge>, AllocError>
    ensures { IfOk result (λ edges. All (IsEdge (insns_of plan.now)) edges.items) }
{
    let mut edges = Vec::new(alloc);
    for from in 0..plan.len() {
        for link in plan.followers(from) {
            edges.push(Edge {
                from: from as u8,
                link: *link,
            })?;
        }
    }
    Ok(edges)
}
