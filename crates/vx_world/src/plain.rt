//! A member that follows a script, so that runs can be tried without queries.
ghost use Rattle.std.specs.Prelude.{◌≡◌, ◌+◌, ◌^◌, ◌<◌, ◌≤◌, true, [], ◌∷◌, length, slice_index, All, IfOk};
ghost use Rattle.vx_pool.specs.Quantum.{IsUnit};
ghost use Rattle.vx_pool.specs.Pools.{IsTree, used_of, reserved_of, would_reserve, with_used};
ghost use Rattle.vx_arb.specs.Members.{IsWithin};
ghost use Rattle.vx_world.specs.Plain.{Raised, capacity_at, reserved_at, unused_at, would_at, plain_of, emptied, using};

use std::alloc::{AllocError, Global};
use std::marker::Model;
use vx_account::Names;
use vx_arb::{AbortNote, Lack, Member, Move};
use vx_pool::{Share, Tree};

// The one leaf below the root.
const LEAF: u32 = 1;

/// A member with one leaf. Each step sets what the leaf uses to the next number of a script; the step
/// after the last gives all back and ends it. Where it is soft, all that it uses can be reclaimed.
#[derive(Drop)]
pub struct PlainMember<L> {
    job: u32,
    tree: Tree<L>,
    script: Vec<u64>,
    // The place of the next number.
    next: usize,
    soft: bool,
    ended: bool,
}

impl<L> Model for PlainMember<L> {
    ghost use Rattle.vx_world.specs.Plain.{Plain};

    ghost Value = { Plain };

    ghost use Rattle.vx_world.specs.PlainFields.{member_seen};
    ghost use Rattle.vx_world.specs.PlainRule.{IsPlain};

    ghost view = { member_seen };

    ghost invariant = { λ member. IsPlain (member_seen member) };
}

// What the one leaf of a tree uses.
fn leaf_used<L: Names>(tree: &Tree<L>) -> u64
    requires { tree.now.parents ≡ 0 ∷ [] }
    ensures { result ≡ used_of tree.now 1 }
{
    tree.used(LEAF)
}

// What the root would have reserved with so much ahead in the one leaf.
fn leaf_would<L: Names>(tree: &Tree<L>, bytes: u64) -> u64
    requires shape { tree.now.parents ≡ 0 ∷ [] }
    requires small { bytes ≤ 2 ^ 33 }
    ensures { result ≡ would_reserve tree.now 1 bytes }
{
    tree.would(LEAF, bytes)
}

// Makes the leaf use so much, which is reserved.
fn set_used<L: Names>(tree: &mut Tree<L>, bytes: u64)
    requires shape { tree.old.parents ≡ 0 ∷ [] }
    requires room { bytes ≤ reserved_of tree.old 1 }
    ensures is { tree.new ≡ with_used tree.old 1 bytes }
    ensures rule { IsTree tree.new }
{
    let used = tree.used(LEAF);
    if bytes > used {
        tree.take(LEAF, bytes - used);
        return;
    }
    tree.give(LEAF, used - bytes);
}

// Reserves what the leaf will use, makes it use that, and settles it.
fn use_up<L: Names>(tree: &mut Tree<L>, bytes: u64)
    requires shape { tree.old.parents ≡ 0 ∷ [] }
    requires small { bytes ≤ 2 ^ 33 }
    requires room { would_reserve tree.old 1 bytes ≤ tree.old.capacity }
    ensures is { tree.new ≡ using tree.old bytes }
    ensures rule { IsTree tree.new }
{
    let ahead = tree.ahead(LEAF, bytes);
    prove!(ahead.is_ok());
    set_used(tree, bytes);
    tree.settle(LEAF);
}

fn empty<L: Names>(tree: &mut Tree<L>)
    requires { tree.old.parents ≡ 0 ∷ [] }
    ensures is { tree.new ≡ emptied tree.old }
    ensures rule { IsTree tree.new }
{
    let used = tree.used(LEAF);
    tree.give(LEAF, used);
}

impl<L: Names> PlainMember<L> {
    pub fn new(
        alloc: Global,
        job: u32,
        unit: u64,
        script: &[u64],
        soft: bool,
    ) -> Result<Self, AllocError>
        requires unit { IsUnit unit }
        requires small { All (λ bytes. bytes ≤ 2 ^ 33) script.now }
        ensures { IfOk result (λ member. member ≡ plain_of job unit script.now soft) }
    {
        Ok(PlainMember {
            job,
            tree: Tree::new(alloc, unit, &[0])?,
            script: script.to_vec(alloc)?,
            next: 0,
            soft,
            ended: false,
        })
    }

    // What the root would have reserved once the next number of the script is ahead.
    fn would(&self) -> u64
        requires { self.now.next < length self.now.script }
        ensures { result ≡ would_at self.now }
    {
        leaf_would(&self.tree, self.script[self.next])
    }

    // Makes the leaf use the next number of the script.
    fn follow(&mut self)
        requires ahead { self.old.next < length self.old.script }
        requires room { would_at self.old ≤ self.old.pools.capacity }
        ensures is { self.new ≡ record self.old {
          pools = using self.old.pools (slice_index self.old.script self.old.next);
          next = self.old.next + 1;
        } }
        ensures rule { IsWithin (capacity_at self.new) (reserved_at self.new) (unused_at self.new) }
    {
        let bytes = self.script[self.next];
        use_up(&mut self.tree, bytes);
        self.next += 1;
    }

    // Gives all back, and answers what was reserved.
    fn give_back(&mut self) -> u64
        ensures freed { result ≡ reserved_at self.old }
        ensures is { self.new ≡ record self.old { pools = emptied self.old.pools } }
        ensures none { reserved_at self.new ≡ 0 }
        ensures nothing { result ≡ 0 → self.new ≡ self.old }
        ensures unused { used_of self.new.pools 1 ≡ 0 }
        ensures rule { IsWithin (capacity_at self.new) (reserved_at self.new) (unused_at self.new) }
    {
        let reserved = self.tree.reserved(0);
        empty(&mut self.tree);
        reserved
    }

    fn end(&mut self)
        ensures is { self.new ≡ record self.old { pools = emptied self.old.pools; ended = true } }
        ensures none { reserved_at self.new ≡ 0 }
        ensures rule { IsWithin (capacity_at self.new) (reserved_at self.new) (unused_at self.new) }
    {
        self.give_back();
        self.ended = true;
    }
}

impl<L: Names> Member<L> for PlainMember<L> {
    ghost use Rattle.vx_world.specs.Plain.{job_at, capacity_at, reserved_at, unused_at, reclaimable_at, ended_at, lack_at, Stepped, Reclaimed, Raised, Lowered, Closed, Ended};

    ghost job_is = { job_at };

    ghost capacity_is = { capacity_at };

    ghost reserved_is = { reserved_at };

    ghost unused_is = { unused_at };

    ghost reclaimable_is = { reclaimable_at };

    ghost ended_is = { ended_at };

    ghost lack_is = { lack_at };

    ghost steps = { Stepped };

    ghost reclaims = { Reclaimed };

    ghost raises = { Raised };

    ghost lowers = { Lowered };

    ghost aborts = { Closed };

    ghost wants = { Ended };

    fn job(&self) -> u32 {
        self.job
    }

    fn capacity(&self) -> u64 {
        self.tree.capacity()
    }

    fn reserved(&self) -> u64 {
        self.tree.reserved(0)
    }

    fn unused(&self) -> u64 {
        self.tree.unused()
    }

    fn reclaimable(&self) -> u64 {
        if self.soft { leaf_used(&self.tree) } else { 0 }
    }

    fn ended(&self) -> bool {
        self.ended
    }

    fn lack(&self, _hint: u32) -> Option<Lack> {
        if self.ended {
            return None;
        }
        if self.next >= self.script.len() {
            return None;
        }
        let would = self.would();
        let capacity = self.tree.capacity();
        if would <= capacity {
            return None;
        }
        Some(Lack {
            leaf: LEAF,
            need: would - capacity,
            capacity,
            reserved: self.tree.reserved(0),
            would,
        })
    }

    fn step(&mut self, hint: u32) -> Move {
        if self.ended {
            return Move::Ended;
        }
        if self.next >= self.script.len() {
            self.end();
            return Move::Ended;
        }
        if let Some(lack) = self.lack(hint) {
            return Move::Short(lack);
        }
        self.follow();
        Move::Moved
    }

    fn reclaim(&mut self, _want: u64) -> u64 {
        if !self.soft {
            return 0;
        }
        self.give_back()
    }

    // The trait's clauses once more: a share by value keeps the method from inheriting them.
    fn raise(&mut self, share: Share<L>)
        requires { self.old.pools.capacity + share ≤ 2 ^ 33 }
        ensures raise { Raised self.old share self.new }
        ensures job { self.new.job ≡ self.old.job }
        ensures capacity { self.new.pools.capacity ≡ self.old.pools.capacity + share }
        ensures reserved { reserved_at self.new ≡ reserved_at self.old }
        ensures ended { self.new.ended ≡ self.old.ended }
        ensures rule { IsWithin (capacity_at self.new) (reserved_at self.new) (unused_at self.new) }
    {
        self.tree.raise(share);
    }

    fn lower(&mut self, bytes: u64) -> Share<L> {
        self.tree.lower(bytes)
    }

    fn abort(&mut self, _note: AbortNote) -> Share<L> {
        self.end();
        let capacity = self.tree.capacity();
        self.lower(capacity)
    }

    fn want(&mut self) {
        self.end();
    }
}
