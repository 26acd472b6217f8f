//! Holders that threads part, move and join. They have no bytes: what is shown here is proved.
ghost use Rattle.std.specs.Prelude.{◌≡◌};
ghost use Rattle.vx_account.specs.Holders.{Has, HasBoth, NoneTwice, all_but};

use crate::{Accounts, Holder};
use std::mem::size_of;
use std::test::Fail;
use std::thread::{Threads, join};

// The parts of two accounts go to a thread each and come back, and no account stands twice.
fn handed_round<R: Threads + Sync>(rt: &R, accounts: &Accounts, all: &mut Holder)
    requires table { all.old.table ≡ accounts.now.table }
    requires first { Has 1 all.old.parts }
    requires second { Has 3 (all_but 1 all.old.parts) }
    ensures table { all.new.table ≡ accounts.now.table }
    ensures books { NoneTwice all.new.books }
    ensures parts { NoneTwice all.new.parts }
{
    let first = accounts.part(all, 1);
    let second = accounts.part(all, 3);
    let (first, second) = join(
        rt,
        move || -> Holder
            requires { first.table ≡ accounts.now.table }
            ensures { result.table ≡ accounts.entry.now.table }
        { kept(accounts, first) },
        move || -> Holder
            requires { second.table ≡ accounts.now.table }
            ensures { result.table ≡ accounts.entry.now.table }
        { kept(accounts, second) },
    );
    accounts.join(all, second);
    accounts.join(all, first);
}

fn kept(accounts: &Accounts, holder: Holder) -> Holder
    requires { holder.table ≡ accounts.now.table }
    ensures { result ≡ holder }
{
    holder
}

#[test]
fn holders_are_parted_moved_and_joined(rt: HostRuntime) -> Result<(), Fail> {
    let (accounts, mut all) = Accounts::new(rt.alloc(), 4)?;
    handed_round(&rt, &accounts, &mut all);
    assert_eq!(rt; size_of::<Holder>(), 0, "a holder's bytes");
    Ok(())
}

#[test]
fn a_book_meets_its_part(rt: HostRuntime) -> Result<(), Fail> {
    let (accounts, mut all) = Accounts::new(rt.alloc(), 4)?;
    accounts.set(&mut all, 2, 65_536);
    accounts.agree(&mut all, 2);
    let mut part = accounts.part(&mut all, 2);
    accounts.join(&mut part, all);
    accounts.agree(&mut part, 2);
    Ok(())
}
