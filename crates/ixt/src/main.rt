//! The program. Its stored run is a refusal, so that an exit status that is always 0 is caught; `ixt_run` has one that is none.
#![tactic(auto)]

use ix_host::run;
use std::process::ExitCode;

fn main(rt: HostRuntime) -> ExitCode {
    run(&rt)
}
