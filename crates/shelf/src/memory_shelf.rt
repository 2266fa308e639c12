// What a shelf over a client's buffer means. Its calls that ask are one line each, like a fixed file's.
ghost use Rattle.std.specs.Prelude.{◌≡◌, ◌≤◌, min, [], length, take};
ghost use Rattle.shelf.specs.Meaning.{limit};
ghost use Rattle.shelf.specs.Kinds.{memory_bytes, memory_stamp, memory_capacity, BufferLeft};

use crate::memory::MemoryShelf;
use crate::reads::{fit, read_from, within_limit};
use crate::refusal::Refusal;
use crate::source::{LIMIT, Shelf, Source};

impl<'a> MemoryShelf<'a> {
    // Makes a shelf of the buffer, whose bytes all stay.
    pub fn new(buffer: &'a mut [u8]) -> MemoryShelf<'a>
        ensures bytes { memory_bytes result ≡ [] }
        ensures stamp { memory_stamp result ≡ 0 }
        ensures capacity { memory_capacity result ≡ min (length buffer.old) limit }
        ensures same { result.buffer.now ≡ buffer.old }
        ensures lent { result.buffer.ghost_name ≡ buffer.entry.ghost_name }
    {
        MemoryShelf {
            buffer,
            count: 0,
            stamp: 0,
        }
    }

    // The bytes that it holds.
    fn held(&self) -> &[u8]
        ensures value { result.now ≡ memory_bytes self.now }
        ensures bound { length result.now ≤ limit }
    {
        within_limit(self.front())
    }
}

impl<'a> Source for MemoryShelf<'a> {
    ghost bytes = { memory_bytes };

    ghost stamp = { memory_stamp };

    fn len(&self) -> u64 {
        self.held().len() as u64
    }

    fn stamp(&self) -> u32 {
        self.stamp
    }

    fn read(&self, place: u64, buffer: &mut [u8]) -> Result<(), Refusal> {
        read_from(self.held(), place, buffer)
    }
}

impl<'a> Shelf for MemoryShelf<'a> {
    ghost capacity = { memory_capacity };

    ghost leaves = { BufferLeft };

    fn capacity(&self) -> u64 {
        (self.buffer.len() as u64).min(LIMIT)
    }

    fn restock(&mut self, given: &[u8], stamp: u32) -> Result<(), Refusal> {
        fit(self.capacity(), self.stamp, given.len() as u64, stamp)?;
        self.hold(given, stamp);
        Ok(())
    }
}
