// A file that lies in memory and stays as it is.
ghost use Rattle.std.specs.Prelude.{◌≡◌, take};
ghost use Rattle.shelf.specs.Meaning.{limit};
ghost use Rattle.shelf.specs.Kinds.{fixed_bytes, fixed_stamp};

use crate::reads::{read_from, within_limit};
use crate::refusal::Refusal;
use crate::source::Source;

// The first 2^40 bytes of the client's data, under a given stamp. Its calls are one line each, as those of a memory shelf are: an impl
// for whatever has bytes in memory would bar the joined shelf's.
#[derive(Clone, Copy)]
pub struct FixedFile<'a> {
    data: &'a [u8],
    stamp: u32,
}

impl<'a> FixedFile<'a> {
    pub fn new(data: &'a [u8], stamp: u32) -> FixedFile<'a>
        ensures bytes { fixed_bytes result ≡ take limit «data».now }
        ensures stamp { fixed_stamp result ≡ stamp }
    {
        FixedFile { data, stamp }
    }
}

impl<'a> Source for FixedFile<'a> {
    ghost bytes = { fixed_bytes };

    ghost stamp = { fixed_stamp };

    fn len(&self) -> u64 {
        within_limit(self.data).len() as u64
    }

    fn stamp(&self) -> u32 {
        self.stamp
    }

    fn read(&self, place: u64, buffer: &mut [u8]) -> Result<(), Refusal> {
        read_from(within_limit(self.data), place, buffer)
    }
}
