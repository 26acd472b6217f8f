//! Query plans: a tree of nodes, each with its number, the refusals of a plan file, and what is asked of a plan
//! that was read: limits, ids, types, widths.
//!
//! Lists are `Items` and the way to a source is `Boxed`, which contracts see as what they hold, so a plan is
//! plain data in every definition. `specs/Check.antt` has the order of the stages, one file each.
#![tactic(auto)]

mod aggregate;
mod aggregates;
mod allowance;
mod checking;
mod columns;
mod copies;
mod growth;
mod ids;
mod kinds;
mod lists;
mod node;
mod refusal;
mod texts;
mod types;
mod widths;

pub use aggregate::{Aggregate, AggregateName, Step};
pub use checking::{check, check_sizes};
pub use kinds::Kinds;
pub use node::{Body, ExchangeKind, JoinKind, Node, Plan};
pub use refusal::{LimitName, Refusal};
pub use types::node_kinds;
pub use widths::{Width, node_width};
