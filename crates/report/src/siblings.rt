// Sibling elements that follow one another with the same outline, which is printed once for them all.
ghost use Rattle.std.specs.Prelude.{Some, string_bytes, Decides, OnOk};
ghost use Rattle.report.specs.Outlines.{Follows, Like, shown};

use std::fmt;
use std::fmt::Write;

// The line that they share, which is their name behind its blanks; the lines below one of them; how many they are, none at first: an
// `Option` of siblings would be matched beside the comparison and in what is printed.
#[derive(Drop)]
pub(crate) struct Siblings {
    pub(crate) line: String,
    pub(crate) below: String,
    pub(crate) count: u64,
}

impl Siblings {
    // Whether the others have the same line, and the same lines below. It is no `==`, since it leaves the count out.
    pub(crate) fn are_like(&self, other: &Siblings) -> bool
        ensures { Decides result (Like self.now other.now) }
    {
        self.line.as_str() == other.line.as_str() && self.below.as_str() == other.below.as_str()
    }

    // One more element behind them: it is counted where it is like them; else they are written, and it takes their place.
    pub(crate) fn follow(&mut self, next: Siblings, lines: &mut String) -> fmt::Result
        ensures { OnOk result (Follows self.old next self.new (string_bytes lines.old) (string_bytes lines.new)) }
    {
        if self.are_like(&next) {
            self.count = self.count.saturating_add(1);
        } else {
            write!(lines, "{self}")?;
            *self = next;
        }
        Ok(())
    }
}

impl fmt::Display for Siblings {
    ghost output = { λ s. Some (shown s) };

    fn fmt<W: fmt::Write>(&self, f: &mut fmt::Formatter<W>) -> fmt::Result {
        let line = self.line.as_str();
        let below = self.below.as_str();
        match self.count {
            0 => Ok(()),
            1 => write!(f, "{line}\n{below}"),
            count => write!(f, "{line} x{count}\n{below}"),
        }
    }
}
