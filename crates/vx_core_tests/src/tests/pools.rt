//! Reservations, peaks and capacity of pool trees.
ghost use Rattle.std.specs.Prelude.{◌≡◌, ◌^◌, ◌≤◌, IfOk};
ghost use Rattle.vx_pool.specs.Pools.{IsShape};

use std::alloc::{AllocError, Global};
use std::marker::Brand;
use std::test::Fail;
use vx_account::Names;
use vx_pool::{Share, Short, Tree, quantum};

const UNIT: u64 = 4_096;

/// Node 1 is under the root with the leaves 2 and 3, and the leaf 4 is under the root.
const PARENTS: [u32; 4] = [0, 1, 1, 0];

fn pool(alloc: Global, parents: &[u32], capacity: u64) -> Result<Tree<Brand>, AllocError>
    requires shape { IsShape parents.now }
    requires capacity { capacity ≤ 2 ^ 33 }
    ensures { IfOk result (λ tree. tree.parents ≡ parents.now) }
{
    let mut tree = Tree::<Brand>::new(alloc, UNIT, parents)?;
    tree.raise(Share::whole(capacity));
    Ok(tree)
}

#[test]
fn quantums_at_the_ends_of_the_steps(rt: HostRuntime) -> Result<(), Fail> {
    let rows: [(u64, u64); 8] = [
        (0, 0),
        (1, 4_096),
        (65_535, 65_536),
        (65_536, 65_536),
        (65_537, 81_920),
        (262_143, 262_144),
        (262_144, 262_144),
        (262_145, 294_912),
    ];
    for (size, reserved) in rows {
        assert!(rt; size < 1_000_000);
        assert_eq!(rt; quantum(UNIT, size), reserved, "of {size} bytes");
    }
    Ok(())
}

#[test]
fn two_leaves_add_up_under_one_node(rt: HostRuntime) -> Result<(), Fail> {
    let mut tree = pool(rt.alloc(), &PARENTS, 1_048_576)?;
    assert_eq!(rt; tree.ahead(2, 1), Ok(()));
    assert_eq!(rt; tree.ahead(3, 65_537), Ok(()));
    assert_eq!(rt; tree.ahead(4, 4_097), Ok(()));
    assert_eq!(rt; tree.reserved(2), 4_096);
    assert_eq!(rt; tree.reserved(3), 81_920);
    assert_eq!(rt; tree.reserved(1), 86_016);
    assert_eq!(rt; tree.reserved(4), 8_192);
    assert_eq!(rt; tree.reserved(0), 94_208);
    assert_eq!(rt; tree.unused(), 954_368);
    Ok(())
}

#[test]
fn a_peak_outlives_a_give(rt: HostRuntime) -> Result<(), Fail> {
    let mut tree = pool(rt.alloc(), &PARENTS, 1_048_576)?;
    assert_eq!(rt; tree.ahead(2, 10_000), Ok(()));
    assert_eq!(rt; tree.used(2), 0);
    assert_eq!(rt; tree.reserved(2), 12_288);
    tree.take(2, 8_192);
    tree.settle(2);
    assert_eq!(rt; tree.used(2), 8_192);
    assert_eq!(rt; tree.reserved(2), 8_192);
    tree.give(2, 8_192);
    assert_eq!(rt; tree.used(2), 0);
    assert_eq!(rt; tree.reserved(0), 0);
    assert_eq!(rt; tree.peak(), 12_288);
    Ok(())
}

#[test]
fn a_pool_that_is_just_full_is_not_refused(rt: HostRuntime) -> Result<(), Fail> {
    let mut tree = pool(rt.alloc(), &PARENTS, 8_192)?;
    assert_eq!(rt; tree.ahead(2, 8_192), Ok(()));
    let short = Short {
        capacity: 8_192,
        reserved: 8_192,
        would: 12_288,
    };
    assert_eq!(rt; tree.ahead(4, 1), Err(short));
    assert_eq!(rt; tree.reserved(4), 0);
    Ok(())
}

#[test]
fn capacity_goes_from_pool_to_pool(rt: HostRuntime) -> Result<(), Fail> {
    let mut tree = pool(rt.alloc(), &PARENTS, 20_000)?;
    assert_eq!(rt; tree.ahead(4, 12_288), Ok(()));
    assert_eq!(rt; tree.unused(), 7_712);
    let mut share = tree.lower(7_712);
    assert_eq!(rt; tree.capacity(), 12_288);
    let part = share.split(712);
    let mut other = pool(rt.alloc(), &[], 0)?;
    assert_eq!(rt; other.capacity(), 0);
    other.raise(share);
    assert_eq!(rt; other.capacity(), 7_000);
    assert_eq!(rt; part.amount(), 712);
    other.raise(part);
    assert_eq!(rt;
        other.ahead(0, 7_712),
        Err(Short {
            capacity: 7_712,
            reserved: 0,
            would: 8_192,
        })
    );
    Ok(())
}

/// What goes to another thread.
fn sent<T: Send + Drop>(_value: T) {}

fn tree_sent<L: Names + Send>(tree: Tree<L>, share: Share<L>) {
    sent(tree);
    sent(share);
}

#[test]
fn trees_and_shares_go_to_other_threads(rt: HostRuntime) -> Result<(), Fail> {
    tree_sent(pool(rt.alloc(), &PARENTS, 0)?, Share::whole(0));
    Ok(())
}
