//! Shares of capacity.
ghost use Rattle.std.specs.Prelude.{◌≡◌, ◌+◌, ◌^◌, ◌≤◌};

use std::marker::{Model, PhantomData};
use vx_account::Names;

/// An amount of capacity of the run `L`, at most 2^33 bytes. It can only be made whole, split and joined.
#[derive(Drop)]
pub struct Share<L> {
    amount: u64,
    of: PhantomData<L>,
}

impl<L> Model for Share<L> {
    ghost use Rattle.std.specs.Prelude.{ℕ, ◌^◌, ◌≤◌};
    ghost use Rattle.std.specs.Coded.{coded_ℕ};

    ghost Value = { ℕ };

    ghost coded = { coded_ℕ };

    ghost view = { λ share. share.amount };

    ghost invariant = { λ share. share.amount ≤ 2 ^ 33 };
}

impl<L: Names> Share<L> {
    /// A share of the whole. Who starts a run makes one, and every other share of it comes from that.
    pub fn whole(total: u64) -> Self
        requires { total ≤ 2 ^ 33 }
        ensures { result ≡ total }
    {
        Share {
            amount: total,
            of: PhantomData,
        }
    }

    pub fn amount(&self) -> u64
        ensures is { result ≡ self.now }
        ensures within { result ≤ 2 ^ 33 }
    {
        self.amount
    }

    /// Takes a share of `bytes` out of this one.
    pub fn split(&mut self, bytes: u64) -> Self
        requires { bytes ≤ self.old }
        ensures taken { result ≡ bytes }
        ensures left { self.new + bytes ≡ self.old }
    {
        self.amount -= bytes;
        Share {
            amount: bytes,
            of: PhantomData,
        }
    }

    pub fn join(&mut self, other: Self)
        requires { self.old + other ≤ 2 ^ 33 }
        ensures { self.new ≡ self.old + other }
    {
        self.amount += other.amount;
    }
}
