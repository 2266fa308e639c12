// Reads the header of a file: its text, its keys, its numbers, and where its blocks stand, in the order of the refusals.
ghost use Rattle.std.specs.Prelude.{◌≡◌, ◌+◌, ◌≤◌, length, drop, Decides, Result};
ghost use Rattle.header.specs.Lines.{Begins, terminator};
ghost use Rattle.header.specs.Rows.{Answer};

use crate::header::Header;
use crate::keys::Key;
use crate::text::TERMINATOR;
use shelf::{Reason, Refusal, Source};

// The most bytes that a header has.
const HEADER_LIMIT: usize = 4096;

// Whether the bytes 0C 0A stand at `place`.
fn terminated<S: Source>(source: &S, place: u64) -> bool
    requires { place + 2 ≤ length (S.Source.bytes source.now) }
    ensures { Decides result (Begins (drop place (S.Source.bytes source.now)) terminator) }
{
    let mut pair = [0u8; 2];
    source.read(place, &mut pair).is_ok() && pair == TERMINATOR
}

// The header of the file, or the first refusal that applies.
pub fn head<S: Source>(source: &S) -> Result<Header, Refusal>
    ensures answer { Answer (S.Source.bytes source.now) result }
    ensures only { (s : Result Header Refusal) → Answer (S.Source.bytes source.now) s → s ≡ result }
{
    let mut buffer = [0u8; HEADER_LIMIT];
    let n = source.len().min(HEADER_LIMIT as u64) as usize;
    let first = &mut buffer[..n];
    source.read(0, first)?;
    let header = Header::stated(first)?;
    if let Err(key) = header.in_order(source.len()) {
        return Err(Reason::BlockMisplaced.at(key.code()));
    }
    if !terminated(source, header.xml.end()) {
        return Err(Reason::BlockMisplaced.at(Key::XmlSize.code()));
    }
    Ok(header)
}
