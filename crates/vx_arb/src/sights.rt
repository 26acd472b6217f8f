//! What the looks of a request say together.
ghost use Rattle.std.specs.Prelude.{◌≡◌, ◌==◌, position};
ghost use Rattle.vx_arb.specs.declared.entries.Look.{Look};
ghost use Rattle.std.specs.List.{list_all};
ghost use Rattle.vx_arb.specs.declared.rows.Live.{Live};
ghost use Rattle.vx_arb.specs.Unmet.{saw_nothing, saw_no_unused};

use crate::{Live, Look};

// Where the look of a job stands.
pub fn seat_of(looks: &[Look], job: u32) -> Option<usize>
    ensures { result ≡ position (λ (look : Look). look.job == job) looks.now }
{
    looks.iter().position(|look| look.job == job)
}

// Whether a look saw that a job had nothing to reclaim.
pub fn nothing_left(looks: &[Look], job: u32) -> bool
    ensures { result ≡ saw_nothing looks.now job }
{
    looks
        .iter()
        .any(|look| look.job == job && look.reclaimable == 0)
}

// Whether the looks saw that no live job had anything to reclaim.
pub fn all_emptied(live: &[Live], looks: &[Look]) -> bool
    ensures { result ≡ list_all (λ (row : Live). saw_nothing looks.now row.job) live.now }
{
    live.iter().all(|row| nothing_left(looks, row.job))
}

// Whether every look but that of one job saw no unused capacity.
pub fn none_unused(looks: &[Look], by: u32) -> bool
    ensures { result ≡ saw_no_unused looks.now by }
{
    looks.iter().all(|look| look.job == by || look.unused == 0)
}
