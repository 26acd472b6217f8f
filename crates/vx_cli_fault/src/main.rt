//! `vxrun` where its plan meets a fault: a stored run of status 1.
#![tactic(auto)]

use std::process::ExitCode;

fn main(rt: HostRuntime) -> ExitCode {
    vx_main::run(&rt, &rt)
}
