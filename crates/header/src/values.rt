// What the lines of a header say of its keys: which are missing, and the numbers and places that they name.
// The keys with codes 1 to 8 name numbers of 1 to 18 digits, which may begin with zeros.
ghost use Rattle.std.specs.Prelude.{◌≡◌, Decides, MatchOption, MatchResult};
ghost use Rattle.header.specs.Lines.{Absent, LineOf, Stands};
ghost use Rattle.header.specs.Entries.{line_of, lines_of};
ghost use Rattle.header.specs.Keys.{name, Numeral, amount, Present, Missing, Complete, MissingRefused, HasNumber, NumberRefused, Block, BlockRefused, Support};
ghost use Rattle.header.specs.declared.keys.Key.TheVariants.{SupportSize, SupportPlace};

use crate::entries::{Entries, Entry, find_key};
use crate::extent::Extent;
use crate::keys::{KEYS, Key};
use crate::text::Class;
use classes::ByteClass;
use shelf::{Reason, Refusal};

// The most digits that a number has.
const MOST_DIGITS: usize = 18;

// The number that 1 to 18 digits write.
fn number(text: &[u8]) -> Option<u64>
    ensures { MatchOption result (Numeral text.now → ⊥) (λ n. Numeral text.now × (n ≡ amount text.now)) }
{
    if text.is_empty() || text.len() > MOST_DIGITS || !Class::Digit.has_all(text) {
        return None;
    }
    // A `for`: that the sums of a `fold` fit is not found, and `parse` would have two ways out more, of UTF-8 and of the number.
    let mut n = 0;
    for b in text {
        n = 10 * n + u64::from(*b - b'0');
    }
    Some(n)
}

impl<'a> Entries<'a> {
    // The entry of the key.
    fn find(&self, key: Key) -> Option<&Entry<'a>>
        ensures { MatchOption result (Absent (lines_of self.now) (name key)) (λ e. LineOf (lines_of self.now) (name key) (line_of e.now)) }
    {
        find_key(&self.all, key.name())
    }

    // Whether a line has the key.
    fn has(&self, key: Key) -> bool
        ensures { Decides result (Present (lines_of self.now) key) }
    {
        self.find(key).is_some()
    }

    // Whether no line has the key, though it may not be left out.
    fn is_missing(&self, key: Key) -> bool
        ensures { Decides result (Missing (lines_of self.now) key) }
    {
        // A match, since a closure that calls `has` tells a proof nothing of its answer.
        !self.has(key)
            && match key.twin() {
                None => true,
                Some(other) => self.has(other),
            }
    }

    // Refused with the lowest code of a key that is missing.
    pub(crate) fn complete(&self) -> Result<(), Refusal>
        ensures { MatchResult result (λ _. Complete (lines_of self.now)) (λ e. MissingRefused (lines_of self.now) e) }
    {
        // A match: an error and its place, or nothing, are no plainer by a method.
        match KEYS.iter().find(|key| self.is_missing(**key)) {
            Some(key) => Err(Reason::KeyMissing.at(key.code())),
            None => Ok(()),
        }
    }

    // The keys that the next three ask for are there, and `support` asks for a complete header. Which keys are there differs by the
    // call, so that a type of complete headers would still ask of each call that its key is a required one.

    // Where the value of the key stands in the file.
    pub(crate) fn extent(&self, key: Key) -> Extent
        requires { Present (lines_of self.now) key }
        ensures { Stands (lines_of self.now) (name key) result }
    {
        self.find(key).unwrap().value_extent()
    }

    // The number that the key names.
    fn number(&self, key: Key) -> Result<u64, Refusal>
        requires { Present (lines_of self.now) key }
        ensures { MatchResult result (λ n. HasNumber (lines_of self.now) key n) (λ e. NumberRefused (lines_of self.now) key e) }
    {
        let entry = self.find(key).unwrap();
        number(entry.value).ok_or(Reason::KeyNotNumber.at(key.code()))
    }

    // The block whose size and place these keys name.
    pub(crate) fn block(&self, size: Key, place: Key) -> Result<Extent, Refusal>
        requires size { Present (lines_of self.now) size }
        requires place { Present (lines_of self.now) place }
        ensures { MatchResult result (λ x. Block (lines_of self.now) size place x) (λ e. BlockRefused (lines_of self.now) size place e) }
    {
        Ok(Extent {
            size: self.number(size)?,
            place: self.number(place)?,
        })
    }

    // The support block, where its keys stand.
    pub(crate) fn support(&self) -> Result<Option<Extent>, Refusal>
        requires { Complete (lines_of self.now) }
        ensures { MatchResult result (λ o. Support (lines_of self.now) o) (λ e. BlockRefused (lines_of self.now) SupportSize SupportPlace e) }
    {
        if !self.has(Key::SupportSize) {
            return Ok(None);
        }
        Ok(Some(self.block(Key::SupportSize, Key::SupportPlace)?))
    }
}
