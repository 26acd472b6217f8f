//! The trait that names a run.
ghost use Rattle.std.specs.Prelude.{ℕ, Bool, true};
ghost use Rattle.atomic_table.specs.Seated.{TableId};
ghost use Rattle.vx_account.specs.Names.{no_table};

use std::marker::Brand;

/// A run, for contracts alone: it has no calls, and no value of it is ever made.
pub trait Names {
    /// How many accounts there are: one for each job, under the job's number.
    ghost accounts: { ℕ };

    /// The table on which the accounts stand, which no other run shares.
    ghost table: { TableId };

    /// The capacity that all jobs share.
    ghost total: { ℕ };

    /// The greatest capacity that the job of a number may have.
    ghost max_of: { ℕ → ℕ };

    /// Whether some call of the run's stores is still to fail.
    ghost store_fails: { Bool };
}

/// Where a call passes `Brand`, its proof picks the members. With no pick they name a run with no
/// accounts and no capacity, of whose stores nothing is known.
impl Names for Brand {
    ghost accounts = { 0 };

    ghost table = { no_table };

    ghost total = { 0 };

    ghost max_of = { λ _. 0 };

    ghost store_fails = { true };
}
