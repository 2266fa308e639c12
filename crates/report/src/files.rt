// What is printed of many files, one after another.
ghost use Rattle.std.specs.Prelude.{Some};
ghost use Rattle.report.specs.Sums.{sum_text};

use crate::header_report::print_header;
use crate::outline::print_outline;
use anyhow::anyhow;
use shelf::FixedFile;
use std::env::Args;
use std::path::Path;
use std::{fmt, fs};

// What of a file is printed: its header, or the elements of its XML block.
// An enum: a function in its place would have to be one that may always be called, and no public function asks anything.
#[derive(Clone, Copy)]
pub enum View {
    Header,
    Outline,
}

// How many files were asked for, how many of them could be read, and how many of these were accepted.
#[derive(Drop, Default)]
pub struct Count {
    pub asked: u64,
    pub read: u64,
    pub accepted: u64,
}

impl fmt::Display for Count {
    ghost output = { λ c. Some (sum_text c.read c.accepted) };

    fn fmt<W: fmt::Write>(&self, f: &mut fmt::Formatter<W>) -> fmt::Result {
        let read = self.read;
        let accepted = self.accepted;
        let refused = read.saturating_sub(accepted);
        write!(f, "{read} files, {accepted} accepted, {refused} refused")
    }
}

// Prints each file; one that cannot be read is named on standard error.
pub fn print_files(rt: &HostRuntime, view: View, paths: Args) -> anyhow::Result<Count> {
    let mut count = Count::default();
    for path in paths {
        count.asked = count.asked.saturating_add(1);
        let Ok(bytes) = fs::read(rt, path.as_str()) else {
            eprintln!(rt; "cphd: {path} cannot be read")?;
            continue;
        };
        count.read = count.read.saturating_add(1);
        let accepted = print_file(rt, view, path.as_str(), &bytes)?;
        count.accepted = count.accepted.saturating_add(u64::from(accepted));
    }
    if count.asked == 0 {
        return Err(anyhow!("at least one file is expected"));
    }
    Ok(count)
}

// Prints a file under its name without folders; answers whether it was accepted.
fn print_file(rt: &HostRuntime, view: View, path: &str, bytes: &[u8]) -> anyhow::Result<bool> {
    let name = Path::new(path).file_name().unwrap_or(path);
    let file = FixedFile::new(bytes, 0);
    match view {
        View::Header => print_header(rt, name, &file),
        View::Outline => print_outline(rt, name, &file),
    }
}
