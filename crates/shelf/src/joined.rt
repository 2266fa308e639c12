// Two shelves as one.
ghost use Rattle.std.specs.Prelude.{◌≡◌, ◌+◌, ◌-◌, min, max, ◌++◌, length, take, Ok};
ghost use Rattle.shelf.specs.Meaning.{limit, state, Fit};
ghost use Rattle.shelf.specs.Kinds.{joined_bytes, joined_stamp, joined_capacity, PartRestocked, PartsLeft};

use crate::reads::{fit, inside, joined_size};
use crate::refusal::Refusal;
use crate::source::{Shelf, Source};

// The first's bytes, then the second's. A restock fills the first up to its capacity and gives the rest to the second.
#[derive(Drop)]
pub struct JoinedShelf<A, B> {
    first: A,
    second: B,
}

// A read that is cut at the joint: `near` bytes of the first from `from` on, the rest of the second from `next` on.
struct Cut {
    from: u64,
    near: u64,
    next: u64,
}

// Either part may be empty. Numbers, as in `inside`.
fn cut_at(joint: u64, place: u64, wanted: u64) -> Cut
    ensures from { result.from ≡ min place joint }
    ensures near { result.near ≡ min wanted (joint - result.from) }
    ensures next { result.next ≡ max place joint - joint }
{
    let from = place.min(joint);
    let near = wanted.min(joint - from);
    let next = place.max(joint) - joint;
    Cut { from, near, next }
}

impl<A: Shelf, B: Shelf> JoinedShelf<A, B> {
    pub fn new(first: A, second: B) -> JoinedShelf<A, B>
        ensures bytes { joined_bytes A.Source.bytes B.Source.bytes result ≡ take limit (A.Source.bytes first ++ B.Source.bytes second) }
        ensures stamp { joined_stamp A.Source.stamp B.Source.stamp result ≡ max (A.Source.stamp first) (B.Source.stamp second) }
        ensures capacity { joined_capacity A.Shelf.capacity B.Shelf.capacity result ≡ min (A.Shelf.capacity first + B.Shelf.capacity second) limit }
        ensures parts { (result.first ≡ first) × (result.second ≡ second) }
    {
        JoinedShelf { first, second }
    }

    // Restocks the first with `front` and the second with `back`, where both take them.
    fn restock_parts(&mut self, front: &[u8], back: &[u8], stamp: u32) -> Result<(), Refusal>
        requires first { Fit (A.Shelf.capacity self.old.first) (A.Source.stamp self.old.first) (length front.now) stamp }
        requires second { Fit (B.Shelf.capacity self.old.second) (B.Source.stamp self.old.second) (length back.now) stamp }
        ensures both { result ≡ Ok tt }
        ensures first { PartRestocked (state A.Source.bytes A.Source.stamp A.Shelf.capacity) A.Shelf.leaves self.old.first front.now stamp self.new.first }
        ensures second { PartRestocked (state B.Source.bytes B.Source.stamp B.Shelf.capacity) B.Shelf.leaves self.old.second back.now stamp self.new.second }
    {
        self.first.restock(front, stamp)?;
        self.second.restock(back, stamp)?;
        Ok(())
    }
}

impl<A: Source, B: Source> Source for JoinedShelf<A, B> {
    ghost bytes = { joined_bytes A.Source.bytes B.Source.bytes };

    ghost stamp = { joined_stamp A.Source.stamp B.Source.stamp };

    fn len(&self) -> u64 {
        joined_size(self.first.len(), self.second.len())
    }

    fn stamp(&self) -> u32 {
        self.first.stamp().max(self.second.stamp())
    }

    fn read(&self, place: u64, buffer: &mut [u8]) -> Result<(), Refusal> {
        let wanted = buffer.len() as u64;
        inside(self.len(), place, wanted)?;
        let Cut { from, near, next } = cut_at(self.first.len(), place, wanted);
        let (front, back) = buffer.split_at_mut(near as usize);
        self.first.read(from, front)?;
        self.second.read(next, back)
    }
}

impl<A: Shelf, B: Shelf> Shelf for JoinedShelf<A, B> {
    ghost capacity = { joined_capacity A.Shelf.capacity B.Shelf.capacity };

    ghost leaves = { PartsLeft (state A.Source.bytes A.Source.stamp A.Shelf.capacity) A.Shelf.leaves (state B.Source.bytes B.Source.stamp B.Shelf.capacity) B.Shelf.leaves };

    fn capacity(&self) -> u64 {
        joined_size(self.first.capacity(), self.second.capacity())
    }

    fn restock(&mut self, given: &[u8], stamp: u32) -> Result<(), Refusal> {
        let count = given.len() as u64;
        fit(self.capacity(), self.stamp(), count, stamp)?;
        let cut = count.min(self.first.capacity()) as usize;
        let (front, back) = given.split_at(cut);
        self.restock_parts(front, back, stamp)
    }
}
