// Classes of bytes, and the runs of one class that a text is made of.
#![tactic(auto)]

ghost use Rattle.std.specs.Prelude.{ℕ, Decides};
ghost use Rattle.std.specs.List.{AllByRecursion};
ghost use Rattle.classes.specs.Runs.{LongestRun};

// A class of bytes: what each member says of itself, the methods say of many bytes.
pub trait ByteClass: Copy {
    // The byte is of the class.
    ghost holds: { Self → ℕ → Type 0 };

    fn has(self, b: u8) -> bool
        ensures { Decides result (holds self b) };

    // Whether every byte is of the class.
    fn has_all(self, bytes: &[u8]) -> bool
        ensures { Decides result (AllByRecursion (holds self) bytes.now) }
    {
        bytes.iter().all(|b| self.has(*b))
    }

    // The longest run of the class at the front, and what follows.
    fn split<'a>(self, bytes: &'a [u8]) -> (&'a [u8], &'a [u8])
        ensures { LongestRun (holds self) bytes.now result.0.now result.1.now }
    {
        let end = bytes.iter().position(|b| !self.has(*b));
        bytes.split_at(end.unwrap_or(bytes.len()))
    }
}
