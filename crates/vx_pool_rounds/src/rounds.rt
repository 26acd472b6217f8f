//! The rounds that are measured.
ghost use Rattle.std.specs.Prelude.{◌≡◌, ◌^◌, ◌≤◌};
ghost use Rattle.vx_pool.specs.Pools.{IsLeaf};
ghost use Rattle.vx_pool_rounds.specs.Forest.{IsForest, IsIdle};

use crate::forest::{FIRST_LEAF, LEAVES};
use std::marker::Brand;
use vx_pool::Tree;

/// Makes so many rounds, each at the next leaf and with other bytes, and counts those without room.
pub fn run(tree: &mut Tree<Brand>, count: u64) -> u64
    requires forest { IsForest tree.old.parents }
    requires idle { IsIdle tree.old }
    ensures { result ≤ count }
{
    let mut refused = 0;
    let mut leaf = 0;
    for turn in 0..count {
        let bytes = turn % 1_000_003;
        if !round(tree, FIRST_LEAF + leaf, bytes) {
            refused += 1;
        }
        leaf = if leaf + 1 < LEAVES { leaf + 1 } else { 0 };
    }
    refused
}

// One reservation from its beginning to its end. `false` says that there is no room.
fn round(tree: &mut Tree<Brand>, leaf: u32, bytes: u64) -> bool
    requires leaf { IsLeaf tree.old.parents leaf }
    requires bytes { bytes ≤ 2 ^ 40 }
    requires idle { IsIdle tree.old }
    ensures parents { tree.new.parents ≡ tree.old.parents }
    ensures idle { IsIdle tree.new }
{
    if tree.ahead(leaf, bytes).is_err() {
        return false;
    }
    tree.take(leaf, bytes);
    tree.settle(leaf);
    tree.give(leaf, bytes);
    true
}
