//! `vxrun` where its plan is refused: a stored run of status 3.
#![tactic(auto)]

use std::process::ExitCode;

fn main(rt: HostRuntime) -> ExitCode {
    vx_main::run(&rt, &rt)
}
