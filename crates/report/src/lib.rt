// What the program prints. Everything that it says of a file comes from the library's calls.
#![tactic(auto)]

mod bytes;
mod demo;
mod files;
mod header_report;
mod outline;
mod refused;
mod siblings;

pub use demo::run_demo;
pub use files::{Count, View, print_files};
pub use header_report::print_header;
