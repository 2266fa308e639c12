// A run of the file's bytes.
ghost use Rattle.std.specs.Prelude.{◌≡◌, ◌-◌, ◌^◌, min, Some};
ghost use Rattle.header.specs.Extents.{ends, shown};

use std::fmt;

#[derive(Clone, Copy, PartialEq, Eq)]
pub struct Extent {
    pub place: u64,
    pub size: u64,
}

impl Extent {
    // Where it ends: exact for a header's extents, whose places and sizes have at most 18 digits.
    pub fn end(self) -> u64
        ensures { result ≡ min (ends self) (2 ^ 64 - 1) }
    {
        self.place.saturating_add(self.size)
    }
}

// Place and size.
impl fmt::Display for Extent {
    ghost output = { λ x. Some (shown x) };

    fn fmt<W: fmt::Write>(&self, f: &mut fmt::Formatter<W>) -> fmt::Result {
        write!(f, "{} {}", self.place, self.size)
    }
}
