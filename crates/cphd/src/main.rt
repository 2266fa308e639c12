// cphd: reads CPHD 1.1.0 products.
#![tactic(auto)]

use report::{View, print_files, run_demo};
use std::env::{self, Args};
use std::process::ExitCode;

const HELP: &str = "cphd reads CPHD 1.1.0 products (compensated phase history data).

usage:
  cphd header FILE...    print each file's header: keys and values, blocks, gaps;
                         status 1 where a file is refused or cannot be read
  cphd headers FILE...   the same, and at the end how many were accepted;
                         status 0 where every file could be read
  cphd outline FILE...   print each file's XML block as a tree of element names;
                         status 1 where a file is refused or cannot be read
  cphd demo              read the header of a built-in product, whole, joined and damaged
  cphd help              print this page

A block is printed as NAME PLACE SIZE, in bytes from the start of the file.
A line of an outline that ends in xN stands for N elements that follow one another.
A refusal is printed as: refused NUMBER PLACE: SENTENCE.";

// The status is told here and in `demo` alike: a function of both, public and with a contract, would be longer.
fn main(rt: HostRuntime) -> anyhow::Result<ExitCode> {
    if run(&rt)? {
        return Ok(ExitCode::SUCCESS);
    }
    Ok(ExitCode::FAILURE)
}

// Carries out the command; answers whether it went well.
fn run(rt: &HostRuntime) -> anyhow::Result<bool> {
    let mut args = env::args(rt)?;
    let _program = args.next();
    let Some(command) = args.next() else {
        return misused(rt, "a command is expected; `cphd help` lists them");
    };
    match command.as_str() {
        "header" => print_all(rt, View::Header, args),
        "headers" => {
            let count = print_files(rt, View::Header, args)?;
            println!(rt; "{count}")?;
            Ok(count.read == count.asked)
        }
        "outline" => print_all(rt, View::Outline, args),
        "demo" => run_demo(rt),
        "help" => {
            println!(rt; "{HELP}")?;
            Ok(true)
        }
        _ => misused(rt, "one of header, headers, demo and help is expected"),
    }
}

// Prints each file; answers whether all were accepted.
fn print_all(rt: &HostRuntime, view: View, paths: Args) -> anyhow::Result<bool> {
    let count = print_files(rt, view, paths)?;
    Ok(count.accepted == count.asked)
}

// Says what was expected.
fn misused(rt: &HostRuntime, expected: &str) -> anyhow::Result<bool> {
    eprintln!(rt; "cphd: {expected}")?;
    Ok(false)
}
