//! `vxrun`: the top call over real files and the standard streams.
#![tactic(auto)]

use std::process::ExitCode;

fn main(rt: HostRuntime) -> ExitCode {
    vx_main::run(&rt, &rt)
}
