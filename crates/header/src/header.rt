// What a header states: where its blocks and two of its values stand in the file.
// The blocks stand in the order XML, support, PVP, signal. Each starts at or after the end of what precedes it, the header
// included, and the signal block ends with the file. The terminator behind the XML block belongs to its end.
ghost use Rattle.std.specs.Prelude.{◌≤◌, length, MatchResult};
ghost use Rattle.header.specs.Lines.{header_limit};
ghost use Rattle.header.specs.Keys.{code};
ghost use Rattle.header.specs.Headers.{Stated, NotStated, Small, InOrder, FirstMisplaced};

use crate::entries::{Entries, FILE_TYPE};
use crate::extent::Extent;
use crate::keys::Key;
use crate::text::TERMINATOR;
use shelf::{Reason, Refusal};

// Where the header ends, where its blocks stand, and where the values of two keys stand.
#[derive(Clone, Copy, PartialEq, Eq)]
pub struct Header {
    pub end: u64,
    pub xml: Extent,
    pub support: Option<Extent>,
    pub pvp: Extent,
    pub signal: Extent,
    pub classification: Extent,
    pub release_info: Extent,
}

impl Header {
    // What `head` states, before its blocks are compared with the file. The numbers are read in the order of their codes.
    pub(crate) fn stated(head: &[u8]) -> Result<Header, Refusal>
        requires { length head.now ≤ header_limit }
        ensures { MatchResult result (λ h. Stated head.now h) (λ e. NotStated head.now e) }
    {
        let text = head.strip_prefix(FILE_TYPE).ok_or(Reason::NotCphd.at(0))?;
        let mut entries = Entries::new();
        entries.read(head, text)?;
        entries.distinct()?;
        entries.complete()?;
        Ok(Header {
            end: (entries.end + TERMINATOR.len()) as u64,
            xml: entries.block(Key::XmlSize, Key::XmlPlace)?,
            support: entries.support()?,
            pvp: entries.block(Key::PvpSize, Key::PvpPlace)?,
            signal: entries.block(Key::SignalSize, Key::SignalPlace)?,
            classification: entries.extent(Key::Classification),
            release_info: entries.extent(Key::ReleaseInfo),
        })
    }

    // Refused with the key that names the first block which stands where it may not in a file of `len` bytes.
    pub(crate) fn in_order(&self, len: u64) -> Result<(), Key>
        requires { Small self.now }
        ensures { MatchResult result (λ _. InOrder self.now len) (λ k. FirstMisplaced self.now len (code k)) }
    {
        let xml_end = self.xml.end() + TERMINATOR.len() as u64;
        if self.xml.place < self.end {
            return Err(Key::XmlPlace);
        }
        if self.support.is_some_and(|block| block.place < xml_end) {
            return Err(Key::SupportPlace);
        }
        if self.pvp.place < self.support.map_or(xml_end, Extent::end) {
            return Err(Key::PvpPlace);
        }
        if self.signal.place < self.pvp.end() {
            return Err(Key::SignalPlace);
        }
        if self.signal.end() != len {
            return Err(Key::SignalSize);
        }
        Ok(())
    }
}
