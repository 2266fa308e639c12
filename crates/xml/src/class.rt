// The classes of bytes that the XML block is made of.
ghost use Rattle.std.specs.Prelude.{◌≡◌, Bool, true};
ghost use Rattle.xml.specs.Bytes.{white, name_start_byte, name_byte, text_byte, is_in};

use classes::ByteClass;

// A class whose runs are read. A value's bytes are those that may stand between two of its quotes. An enum, since functions take a
// class as a value.
#[derive(Clone, Copy)]
pub(crate) enum Class {
    White,
    Name,
    AttributeName,
    Text,
    Value(u8),
}

// These tests are written without `matches!`: by it names of digits take three times as long, and attributes half as long again.

fn is_white(b: u8) -> bool
    ensures { result ≡ white b }
{
    b == b' ' || b == b'\t' || b == b'\n' || b == b'\r'
}

pub(crate) fn starts_name(b: u8) -> bool
    ensures { result ≡ name_start_byte b }
{
    b.is_ascii_alphabetic() || b == b'_'
}

fn is_in_name(b: u8) -> bool
    ensures { result ≡ name_byte b }
{
    starts_name(b) || b >= b'0' && b <= b'9' || b == b'-' || b == b'.'
}

pub(crate) fn is_text(b: u8) -> bool
    ensures { result ≡ text_byte b }
{
    (b >= b' ' || is_white(b)) && b != 0x7f && b != b'<' && b != b'&'
}

impl ByteClass for Class {
    ghost holds = { λ class b. is_in class b ≡ true };

    fn has(self, b: u8) -> bool {
        match self {
            Class::White => is_white(b),
            Class::Name => is_in_name(b),
            Class::AttributeName => is_in_name(b) || b == b':',
            Class::Text => is_text(b),
            Class::Value(quote) => b != quote && b != b'<',
        }
    }
}
