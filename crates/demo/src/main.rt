// Runs what `cphd demo` runs, so that the gate compares what it prints.
#![tactic(auto)]

use report::run_demo;
use std::process::ExitCode;

// The status is told here and in `cphd` alike: a function of both, public and with a contract, would be longer.
fn main(rt: HostRuntime) -> anyhow::Result<ExitCode> {
    if run_demo(&rt)? {
        return Ok(ExitCode::SUCCESS);
    }
    Ok(ExitCode::FAILURE)
}
