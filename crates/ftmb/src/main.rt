//! The program. Its stored run is refused, for a bad box file, and ends with status 6. Those that end well are sessions of
//! `ftmb_runs`.
#![tactic(auto)]

use command_line::run_program;
use std::process::ExitCode;

fn main(rt: HostRuntime) -> ExitCode {
    run_program(&rt, &rt.stderr())
}
