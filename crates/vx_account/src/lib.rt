//! Accounts: what ties a number behind one lock to a number behind another, and what a run is called by.
//!
//!     new · part* · (join · agree · set · part)* · join*      a holder for whoever has a share
//!
//! Each account has one book and one part, which are always equal and which two holders may have. Who
//! brings both together knows that they are equal, and alone can change them. Nothing of it runs: a
//! holder has no bytes, and a call is a load or two of a word that never changes.
//!
//! What holds between any two steps is `KeepsAccounts` (`specs/AccountRule.antt`). What a holder has is
//! in `specs/Holders.antt`.
//!
//! Types that have to agree on one run take a parameter `L: Names`, which names the accounts' table and
//! the run's limits. Its members speak in contracts alone, and who starts a run picks them at std's
//! `Brand`.
#![tactic(auto)]

mod accounts;
mod law;
mod naming;
#[cfg(test)]
mod tests;
mod view;

pub use accounts::{Accounts, Holder};
pub use naming::Names;
pub use view::{Slip, View};
