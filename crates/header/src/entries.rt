// The lines of a header, as entries of a key and a value.
// A header is the file type, at most 32 lines and the terminator, which may stand where the 33rd line would.
// A line that does not end before the file or the header's limit does is malformed.
ghost use Rattle.std.specs.Prelude.{◌≡◌, ◌+◌, ◌≤◌, [], ◌++◌, map, length, MatchOption, MatchResult};
ghost use Rattle.header.specs.Lines.{header_limit, file_type, Distinct, RepeatedRefused, HeaderText, LinesRefused, Absent, LineOf};
ghost use Rattle.header.specs.Entries.{line_of, lines_of};

use crate::extent::Extent;
use crate::lines::Lines;
use crate::text::{SEPARATOR, TERMINATOR};
use arrayvec::ArrayVec;
use shelf::{Reason, Refusal};

// What a file begins with.
pub const FILE_TYPE: &[u8] = b"CPHD/1.1.0\n";

// The most lines that a header has.
const MOST_LINES: usize = 32;

// A line's key and value, and where the line starts in the file: a place of 32 bits has a sum with any length.
// The default fills the places that are not in use.
#[derive(Clone, Copy, Default)]
pub(crate) struct Entry<'a> {
    pub key: &'a [u8],
    pub value: &'a [u8],
    pub place: u32,
}

// The entries of a header's lines, and where its terminator stands.
#[derive(Drop)]
pub(crate) struct Entries<'a> {
    pub all: ArrayVec<Entry<'a>, MOST_LINES>,
    pub end: usize,
}

impl<'a> Entry<'a> {
    // Where the value stands in the file.
    pub(crate) fn value_extent(&self) -> Extent
        ensures place { result.place ≡ self.now.place + length self.now.key.now + 4 }
        ensures size { result.size ≡ length self.now.value.now }
    {
        Extent {
            place: u64::from(self.place) + (self.key.len() + SEPARATOR.len()) as u64,
            size: self.value.len() as u64,
        }
    }
}

impl<'a> Entries<'a> {
    // No lines.
    pub(crate) fn new() -> Entries<'a>
        ensures { lines_of result ≡ [] }
    {
        Entries {
            all: ArrayVec::new(),
            end: 0,
        }
    }

    // Reads the entries of the header that `head` begins with, in place of those that stood here; `text` follows its file type.
    pub(crate) fn read(&mut self, head: &'a [u8], text: &'a [u8]) -> Result<(), Refusal>
        requires short { length head.now ≤ header_limit }
        requires begins { head.now ≡ file_type ++ text.now }
        ensures { MatchResult result (λ _. HeaderText head.now (lines_of self.new) self.new.end) (λ e. LinesRefused head.now e) }
    {
        self.all.clear();
        self.end = FILE_TYPE.len();
        for line in Lines::new(text).take(MOST_LINES) {
            self.all.push(Entry {
                key: line.key,
                value: line.value,
                place: self.end as u32,
            });
            self.end = head.len() - line.rest.len();
        }
        if !head[self.end..].starts_with(&TERMINATOR) {
            return Err(Reason::LineMalformed.at(self.end as u64));
        }
        Ok(())
    }

    // Refused with the place of the first line whose key stood before.
    pub(crate) fn distinct(&self) -> Result<(), Refusal>
        ensures { MatchResult result (λ _. Distinct (lines_of self.now)) (λ e. RepeatedRefused (lines_of self.now) e) }
    {
        // A `for`: each entry is looked for among those before it, and a `find` would carry their number along in a pair.
        let entries = self.all.as_slice();
        for (j, entry) in entries.iter().enumerate() {
            if find_key(&entries[..j], entry.key).is_some() {
                return Err(Reason::KeyRepeated.at(u64::from(entry.place)));
            }
        }
        Ok(())
    }
}

// The first entry of this key.
pub(crate) fn find_key<'s, 'a>(entries: &'s [Entry<'a>], key: &[u8]) -> Option<&'s Entry<'a>>
    ensures { MatchOption result (Absent (map line_of entries.now) key.now) (λ e. LineOf (map line_of entries.now) key.now (line_of e.now)) }
{
    entries.iter().find(|entry| entry.key == key)
}
