// A source is a stamp and a list of at most 2^40 bytes that can be read; a shelf is a source that can be restocked.
ghost use Rattle.std.specs.Prelude.{◌≡◌, ℕ, ◌≤◌, List, length, Result};
ghost use Rattle.shelf.specs.declared.refusal.Refusal.{Refusal};
ghost use Rattle.shelf.specs.Meaning.{limit, state, Reads, Restocks};

use crate::refusal::Refusal;

// The most bytes that a source holds.
pub const LIMIT: u64 = 1 << 40;

// Bytes under a stamp. No call changes them.
pub trait Source {
    // What the source means: the bytes that it holds, and its stamp.
    ghost bytes: { Self → List ℕ };

    ghost stamp: { Self → ℕ };

    fn len(&self) -> u64
        ensures value { result ≡ length (bytes self.now) }
        ensures bound { result ≤ limit };

    fn stamp(&self) -> u32
        ensures { result ≡ stamp self.now };

    // Fills `buffer` with the bytes from `place` on; refused 3 with the length where they reach past the end.
    fn read(&self, place: u64, buffer: &mut [u8]) -> Result<(), Refusal>
        ensures { Reads (bytes self.now) place buffer.old buffer.new result };
}

// A source whose bytes and stamp a restock replaces, up to a capacity that stays.
pub trait Shelf: Source {
    // The most bytes that a restock may give.
    ghost capacity: { Self → ℕ };

    // What a restock with these bytes under this stamp leaves of the shelf besides its meaning, by the answer.
    ghost leaves: { Self → List ℕ → ℕ → Result Unit Refusal → Self → Type 0 };

    fn capacity(&self) -> u64
        ensures value { result ≡ capacity self.now }
        ensures bound { result ≤ limit };

    // Makes bytes and stamp those given; refused 1 with the shelf's stamp, else 2 with its capacity, and then nothing changes.
    fn restock(&mut self, given: &[u8], stamp: u32) -> Result<(), Refusal>
        ensures means { Restocks (state Self.Source.bytes Self.Source.stamp capacity self.old) given.now stamp (state Self.Source.bytes Self.Source.stamp capacity self.new) result }
        ensures leaves { leaves self.old given.now stamp result self.new };
}
