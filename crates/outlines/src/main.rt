// Prints what `cphd outline` prints of many files, and how many were accepted. It ends well also where some are refused, so
// that the gate compares what it prints.
#![tactic(auto)]

use anyhow::anyhow;
use report::{View, print_files};
use std::env;

fn main(rt: HostRuntime) -> anyhow::Result<()> {
    run(&rt)
}

fn run(rt: &HostRuntime) -> anyhow::Result<()> {
    let mut args = env::args(rt)?;
    let _program = args.next();
    let count = print_files(rt, View::Outline, args)?;
    println!(rt; "{count}")?;
    if count.read < count.asked {
        return Err(anyhow!("not every file could be read"));
    }
    Ok(())
}
