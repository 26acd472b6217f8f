//! The pool tree.
ghost use Rattle.std.specs.Prelude.{◌≡◌, ◌+◌, ◌-◌, ◌^◌, ◌<◌, ◌≤◌, ◌↔◌, IsErr, IfOk, OnOk, IfErr, OnErr};
ghost use Rattle.vx_pool.specs.Pools.{IsShape, IsLeaf, IsTree, KeepsReserved, Explains, node_count, used_of, reserved_of, unused_of, would_reserve, empty_tree, with_used, with_ahead, after_ahead};
ghost use Rattle.vx_pool.specs.Quantum.{IsUnit};

use crate::paths::set_path;
use crate::{Share, quantum};
use std::alloc::{AllocError, Global};
use std::marker::Model;
use vx_account::Names;

/// Why there is no room: the root would have more reserved than the capacity.
#[derive(Clone, Copy, Debug, PartialEq, Eq)]
pub struct Short {
    pub capacity: u64,
    /// What the root has reserved.
    pub reserved: u64,
    /// What the root would have reserved.
    pub would: u64,
}

/// The pools of one query: a tree of nodes under numbers, of which node 0 is the root and each child's
/// number is greater than its parent's. A node without children is a leaf. All amounts are bytes.
#[derive(Drop)]
pub struct Tree<L> {
    unit: u64,
    capacity: Share<L>,
    peak: u64,
    // Entry i is the parent of node i + 1.
    parents: Vec<u32>,
    // What each leaf uses and has ahead, and what each node has reserved.
    used: Vec<u64>,
    ahead: Vec<u64>,
    reserved: Vec<u64>,
}

impl<L> Model for Tree<L> {
    ghost use Rattle.vx_pool.specs.Pools.{Pools};

    ghost Value = { Pools };

    ghost use Rattle.vx_pool.specs.Fields.{pools_of};
    ghost use Rattle.vx_pool.specs.Sums.{IsKept};

    ghost view = { pools_of };

    ghost invariant = { λ tree. IsKept (pools_of tree) tree.reserved.items };
}

impl<L: Names> Tree<L> {
    /// A tree with no capacity. Entry i of `parents` is the parent of node i + 1.
    pub fn new(alloc: Global, unit: u64, parents: &[u32]) -> Result<Self, AllocError>
        requires unit { IsUnit unit }
        requires shape { IsShape parents.now }
        ensures empty { IfOk result (λ tree. tree ≡ empty_tree unit parents.now) }
        ensures rule { IfOk result IsTree }
    {
        let nodes = parents.len() + 1;
        Ok(Tree {
            unit,
            capacity: Share::whole(0),
            peak: 0,
            parents: parents.to_vec(alloc)?,
            used: vec![in alloc; 0; nodes]?,
            ahead: vec![in alloc; 0; nodes]?,
            reserved: vec![in alloc; 0; nodes]?,
        })
    }

    /// Reserves room for `bytes` in a leaf, before they are taken.
    pub fn ahead(&mut self, leaf: u32, bytes: u64) -> Result<(), Short>
        requires leaf { IsLeaf self.old.parents leaf }
        requires bytes { bytes ≤ 2 ^ 40 }
        ensures ok { OnOk result (self.new ≡ after_ahead self.old leaf bytes) }
        ensures room { OnOk result (bytes ≤ reserved_of self.new leaf) }

        // Refused exactly where the capacity would be passed, with the numbers that show it.
        ensures short { IsErr result ↔ (self.old.capacity < would_reserve self.old leaf bytes) }
        ensures numbers { IfErr result (Explains self.old leaf bytes) }
        ensures err { OnErr result (self.new ≡ self.old) }
        ensures rule { IsTree self.new }
    {
        let would = self.would(leaf, bytes);
        let capacity = self.capacity.amount();
        if would > capacity {
            return Err(Short {
                capacity,
                reserved: self.reserved[0],
                would,
            });
        }
        let place = leaf as usize;
        let amount = quantum(self.unit, self.used[place].max(bytes));
        set_path(&self.parents, &mut self.reserved, leaf, amount);
        self.ahead[place] = bytes;
        self.peak = self.peak.max(would);
        Ok(())
    }

    /// Ends a reservation: what the leaf doesn't use is free again.
    pub fn settle(&mut self, leaf: u32)
        requires { IsLeaf self.old.parents leaf }
        ensures settled { self.new ≡ with_ahead self.old leaf 0 }
        ensures rule { IsTree self.new }
    {
        let place = leaf as usize;
        let amount = quantum(self.unit, self.used[place]);
        set_path(&self.parents, &mut self.reserved, leaf, amount);
        self.ahead[place] = 0;
    }

    /// Takes bytes of what a leaf has reserved.
    pub fn take(&mut self, leaf: u32, bytes: u64)
        requires leaf { IsLeaf self.old.parents leaf }
        requires room { used_of self.old leaf + bytes ≤ reserved_of self.old leaf }
        ensures taken { self.new ≡ with_used self.old leaf (used_of self.old leaf + bytes) }

        // What is taken was reserved before, so no node has more or less reserved.
        ensures keeps { KeepsReserved self.old self.new }
        ensures rule { IsTree self.new }
    {
        self.used[leaf as usize] += bytes;
    }

    /// Gives back bytes that a leaf uses.
    pub fn give(&mut self, leaf: u32, bytes: u64)
        requires leaf { IsLeaf self.old.parents leaf }
        requires used { bytes ≤ used_of self.old leaf }
        ensures given { self.new ≡ with_used self.old leaf (used_of self.old leaf - bytes) }
        ensures rule { IsTree self.new }
    {
        let place = leaf as usize;
        let used = self.used[place] - bytes;
        let amount = quantum(self.unit, used.max(self.ahead[place]));
        set_path(&self.parents, &mut self.reserved, leaf, amount);
        self.used[place] = used;
    }

    /// Adds a share to the capacity.
    pub fn raise(&mut self, share: Share<L>)
        requires { self.old.capacity + share ≤ 2 ^ 33 }
        ensures raised { self.new ≡ record self.old { capacity = self.old.capacity + share } }
        ensures rule { IsTree self.new }
    {
        self.capacity.join(share);
    }

    /// Takes a share of `bytes` out of the capacity.
    pub fn lower(&mut self, bytes: u64) -> Share<L>
        requires { bytes ≤ unused_of self.old }
        ensures share { result ≡ bytes }
        ensures lowered { self.new ≡ record self.old { capacity = self.old.capacity - bytes } }
        ensures rule { IsTree self.new }
    {
        self.capacity.split(bytes)
    }

    /// The capacity that isn't reserved.
    pub fn unused(&self) -> u64
        ensures is { result ≡ unused_of self.now }
        ensures rule { IsTree self.now }
    {
        self.capacity.amount() - self.reserved[0]
    }

    /// What the root would have reserved with `bytes` ahead in a leaf: `ahead` is refused where that passes
    /// the capacity.
    pub fn would(&self, leaf: u32, bytes: u64) -> u64
        requires leaf { IsLeaf self.now.parents leaf }
        requires bytes { bytes ≤ 2 ^ 40 }
        ensures is { result ≡ would_reserve self.now leaf bytes }
        ensures rule { IsTree self.now }
    {
        let place = leaf as usize;
        let wanted = self.used[place].max(bytes);
        self.reserved[0] - self.reserved[place] + quantum(self.unit, wanted)
    }

    pub fn capacity(&self) -> u64
        ensures is { result ≡ self.now.capacity }
        ensures rule { IsTree self.now }
    {
        self.capacity.amount()
    }

    /// What a node has reserved, be it a leaf or not.
    pub fn reserved(&self, node: u32) -> u64
        requires { node < node_count self.now }
        ensures is { result ≡ reserved_of self.now node }
        ensures rule { IsTree self.now }
    {
        self.reserved[node as usize]
    }

    /// What a leaf uses.
    pub fn used(&self, leaf: u32) -> u64
        requires { IsLeaf self.now.parents leaf }
        ensures is { result ≡ used_of self.now leaf }
        ensures rule { IsTree self.now }
    {
        self.used[leaf as usize]
    }

    /// The greatest amount that the root has had reserved.
    pub fn peak(&self) -> u64
        ensures is { result ≡ self.now.peak }
        ensures rule { IsTree self.now }
    {
        self.peak
    }
}
