//! The one loop of the crate: sums along a path.
ghost use Rattle.std.specs.Prelude.{◌+◌, ◌^◌, ◌<◌, slice_index};
ghost use Rattle.vx_pool.specs.Pools.{IsShape, IsLeaf};
ghost use Rattle.vx_pool.specs.Sums.{AddsUp, Moves};

// Sets a leaf's amount, and the sums of all nodes above it.
pub(crate) fn set_path(parents: &[u32], sums: &mut [u64], leaf: u32, amount: u64)
    requires shape { IsShape parents.now }
    requires leaf { IsLeaf parents.now leaf }
    requires adds_up { AddsUp parents.now sums.old }
    requires fits { slice_index sums.old 0 + amount < 2 ^ 64 }
    ensures { Moves parents.now sums.old sums.new leaf amount }
{
    let before = sums[leaf as usize];
    let mut node = leaf as usize;
    while node > 0 {
        sums[node] = sums[node] - before + amount;
        node = parents[node - 1] as usize;
    }
    sums[0] = sums[0] - before + amount;
}
