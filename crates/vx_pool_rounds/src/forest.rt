//! A tree as a query has it: each of 21 plan nodes under the root has two operators as its leaves.
ghost use Rattle.std.specs.Prelude.{IfOk};
ghost use Rattle.vx_pool_rounds.specs.Forest.{IsForest};

use std::alloc::{AllocError, Global};

pub const FIRST_LEAF: u32 = 22;

pub const LEAVES: u32 = 42;

/// The parents of the nodes 1 to 63.
pub fn parents(alloc: Global) -> Result<Vec<u32>, AllocError>
    ensures { IfOk result (λ list. IsForest list.items) }
{
    let mut list = Vec::new(alloc);
    for node in 1..FIRST_LEAF + LEAVES {
        let parent = if node < FIRST_LEAF {
            0
        } else {
            1 + (node - FIRST_LEAF) / 2
        };
        list.push(parent)?;
    }
    Ok(list)
}
