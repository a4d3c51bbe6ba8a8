//! Blocks that are parted into their instructions.

ghost use Rattle.std.specs.Prelude.{◌≡◌, map, IfOk};
ghost use Rattle.c62_apart.specs.Touch.{parted};

use c62_read::Block;
use std::alloc::{AllocError, Global};

/// Each instruction of a block as a block of its own.
fn parted(alloc: Global, block: &Block) -> Result<Vec<Block>, AllocError>
    ensures { IfOk result (λ parts. parts.items ≡ parted block.now) }
{
    let mut parts = Vec::new(alloc);
    for entry in block.insns() {
        parts.push(Block::new(None, Vec::from_slice(alloc, &[*entry])?))?;
    }
    Ok(parts)
}

/// The same of each block of a program.
pub(crate) fn all_parted(alloc: Global, blocks: &[Block]) -> Result<Vec<Vec<Block>>, AllocError>
    ensures { IfOk result (λ all. map (λ parts. parts.items) all.items ≡ map parted blocks.now) }
{
    let mut all = Vec::new(alloc);
    for block in blocks {
        all.push(parted(alloc, block)?)?;
    }
    Ok(all)
}
