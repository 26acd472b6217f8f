//! The names of a run, picked by a caller.
ghost use Rattle.std.specs.Prelude.{◌≡◌, ◌≤◌};

use std::marker::Brand;
use std::test::Fail;
use vx_account::Names;

// Half of a run's total, under the run's own names.
fn half_of_a_run<L: Names>(total: u64) -> u64
    requires { total ≡ L.total }
    ensures { result ≤ L.total }
{
    total / 2
}

// A caller with a number of its own picks that number as the run's total.
fn half(total: u64) -> u64
    ensures { result ≤ total }
{
    half_of_a_run::<Brand>(total)
}

#[test]
fn a_caller_picks_the_names_at_brand(rt: HostRuntime) -> Result<(), Fail> {
    assert_eq!(rt; half(10), 5);
    Ok(())
}
