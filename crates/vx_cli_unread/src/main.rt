//! `vxrun` where nothing stands under its name: a stored run of status 6.
#![tactic(auto)]

use std::process::ExitCode;

fn main(rt: HostRuntime) -> ExitCode {
    vx_main::run(&rt, &rt)
}
