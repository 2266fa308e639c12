// The header's text: classes of bytes, and a line of a key and a value.
// A line is a key, " := ", a value and a line feed. A key is one or more of A-Z, 0-9 and underscore, and ends at the
// first byte that is none of these. A value is one or more bytes 20 to 7E; the separator may stand in it.
ghost use Rattle.std.specs.Prelude.{◌≡◌, ℕ, List, ◌∷◌, MatchOption};
ghost use Rattle.header.specs.Bytes.{In};
ghost use Rattle.header.specs.Lines.{OnlyLine, NoLine};

use classes::ByteClass;

// What stands between a key and its value.
pub(crate) const SEPARATOR: &[u8] = b" := ";

// What ends a line.
const LINE_FEED: u8 = b'\n';

// What ends the header, and the XML block.
pub const TERMINATOR: [u8; 2] = *b"\x0c\n";

// What keys, values and numbers are made of. An enum, whose tests stand together, is plainer than a type for each class.
#[derive(Clone, Copy)]
pub(crate) enum Class {
    Key,
    Value,
    Digit,
}

impl ByteClass for Class {
    ghost holds = { In };

    fn has(self, b: u8) -> bool {
        match self {
            Class::Key => b.is_ascii_uppercase() || b.is_ascii_digit() || b == b'_',
            Class::Value => matches!(b, b' '..=b'~'),
            Class::Digit => matches!(b, b'0'..=b'9'),
        }
    }
}

// A line's key and value, and the bytes behind its line feed.
#[derive(Clone, Copy)]
pub struct Line<'a> {
    pub key: &'a [u8],
    pub value: &'a [u8],
    pub rest: &'a [u8],
}

// What follows the line feed that stands at the front of `bytes`, if one does.
fn behind_line_feed(bytes: &[u8]) -> Option<&[u8]>
    ensures { MatchOption result ((rest : List ℕ) → bytes.now ≡ 10 ∷ rest → ⊥) (λ rest. bytes.now ≡ 10 ∷ rest.now) }
{
    match bytes {
        [LINE_FEED, rest @ ..] => Some(rest),
        _ => None,
    }
}

// The line that stands at the front of `bytes`, if one does: there is at most one.
pub fn first_line<'a>(bytes: &'a [u8]) -> Option<Line<'a>>
    ensures { MatchOption result (NoLine bytes.now) (λ l. OnlyLine bytes.now l.key.now l.value.now l.rest.now) }
{
    let (key, rest) = Class::Key.split(bytes);
    let (value, rest) = Class::Value.split(rest.strip_prefix(SEPARATOR)?);
    let rest = behind_line_feed(rest)?;
    if key.is_empty() || value.is_empty() {
        return None;
    }
    Some(Line { key, value, rest })
}
