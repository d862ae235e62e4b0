//! The program once more, with a stored run that writes its output whole.
#![tactic(auto)]

use ix_host::run;
use std::process::ExitCode;

fn main(rt: HostRuntime) -> ExitCode {
    run(&rt)
}
