// The tests and copies that the kinds of source share.
ghost use Rattle.std.specs.Prelude.{◌≡◌, ◌+◌, ◌<◌, ◌≤◌, min, length, take, MatchResult};
ghost use Rattle.shelf.specs.Refusals.{Says};
ghost use Rattle.shelf.specs.Refusals.Place.{byte_length};
ghost use Rattle.shelf.specs.Meaning.{limit, Reads, Fit, Unfit};

use crate::refusal::{Reason, Refusal};
use crate::source::LIMIT;

// The first 2^40 bytes.
pub fn within_limit(bytes: &[u8]) -> &[u8]
    ensures value { result.now ≡ take limit bytes.now }
    ensures bound { length result.now ≤ limit }
{
    &bytes[..bytes.len().min(LIMIT as usize)]
}

// The sum of two lengths or capacities, at most 2^40.
pub fn joined_size(first: u64, second: u64) -> u64
    ensures { result ≡ min (first + second) limit }
{
    first.saturating_add(second).min(LIMIT)
}

// Whether a read of `wanted` bytes from `place` stays inside `length` bytes. Numbers, since a struct of them would be made
// for one call and taken apart in it.
pub fn inside(length: u64, place: u64, wanted: u64) -> Result<(), Refusal>
    ensures { MatchResult result (λ _. place + wanted ≤ length) (λ e. (length < place + wanted) × Says e 3 byte_length length) }
{
    if place > length || wanted > length - place {
        return Err(Reason::PastEnd.at(length));
    }
    Ok(())
}

// Reads out of a slice, as a source is read.
pub fn read_from(bytes: &[u8], place: u64, buffer: &mut [u8]) -> Result<(), Refusal>
    ensures { Reads bytes.now place buffer.old buffer.new result }
{
    let wanted = buffer.len();
    inside(bytes.len() as u64, place, wanted as u64)?;
    let from = place as usize;
    buffer.copy_from_slice(&bytes[from..from + wanted]);
    Ok(())
}

// Whether a shelf of this capacity and stamp takes `size` bytes under the stamp `new`. It takes numbers: a call that takes the
// shelf, from its own `restock`, is not covered by the borrow checker yet.
pub fn fit(capacity: u64, stamp: u32, size: u64, new: u32) -> Result<(), Refusal>
    ensures { MatchResult result (λ _. Fit capacity stamp size new) (Unfit capacity stamp size new) }
{
    if new <= stamp {
        return Err(Reason::StampNotAbove.at(u64::from(stamp)));
    }
    if size > capacity {
        return Err(Reason::OverCapacity.at(capacity));
    }
    Ok(())
}
