//! The dependences of an instruction, as lists.

ghost use Rattle.std.specs.Prelude.{◌≡◌, IfOk};
ghost use Rattle.c62_depend.specs.Lists.{links_of};

use smallvec::SmallVec;
use std::alloc::{AllocError, Global};

/// One end of a dependence: the number of the other instruction, and the latency of the dependence.
#[derive(Clone, Copy, Default, PartialEq, Eq, Debug)]
pub struct Link {
    /// The number of the other instruction.
    pub number: u8,
    /// The least number of cycles from the earlier instruction to the later one. It may be negative.
    pub latency: i8,
}

/// The dependences of one instruction. Most have few.
pub type Links = SmallVec<Link, 8>;

/// Equal lists.
pub(crate) fn copy_lists(alloc: Global, lists: &[Links]) -> Result<Vec<Links>, AllocError>
    ensures { IfOk result (λ copies. links_of copies.items ≡ links_of lists.now) }
{
    let mut copies = Vec::with_capacity(alloc, lists.len())?;
    for list in lists {
        copies.push(Links::from_slice(alloc, list.as_slice())?)?;
    }
    Ok(copies)
}
