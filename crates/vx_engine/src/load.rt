//! From a file's name to its plan.

ghost use Rattle.std.specs.Prelude.{◌≡◌, ◌≤◌};
ghost use Rattle.vx_host.specs.Host.{KeepsFiles};
ghost use Rattle.vx_host.specs.declared.host.To.{To as Place};
ghost use Rattle.vx_engine.specs.Ending.{Loads};

use crate::stop::Stop;
use std::alloc::Global;
use vx_host::Host;
use vx_json::plan_of;
use vx_plan::Plan;

/// The most bytes that a plan file may have.
const FILE_LIMIT: u64 = 16_777_216;

/// The plan that the named file is.
pub(crate) fn load<H: Host>(alloc: Global, name: &str, host: &mut H) -> Result<Plan, Stop>
    ensures loads { Loads (H.files host.old) (H.files host.new) name.now result }
    ensures files { KeepsFiles (H.files host.old) (H.files host.new) }
    ensures later { (H.files host.old).faults ≤ (H.files host.new).faults }
    ensures sinks { (to : Place) → H.sink host.new to ≡ H.sink host.old to }
{
    let bytes = host.read(name, FILE_LIMIT)?;
    let plan = plan_of(alloc, bytes.as_slice())?;
    Ok(plan)
}
