//! `vxrun` where its words have no settings: a stored run of status 2.
#![tactic(auto)]

use std::process::ExitCode;

fn main(rt: HostRuntime) -> ExitCode {
    vx_main::run(&rt, &rt)
}
