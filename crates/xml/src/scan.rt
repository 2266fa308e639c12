// The scanners that the reader is made of: each reads one thing that the text begins with, and answers what follows it.
ghost use Rattle.std.specs.Prelude.{Decides};
ghost use Rattle.xml.specs.Bytes.{AllOf, white, text_byte};
ghost use Rattle.xml.specs.Forms.{PairForm};
ghost use Rattle.xml.specs.Reads.{Reads, Ends, Span};

use crate::class::{Class, is_text};
use classes::ByteClass;

// What follows the white space.
pub(crate) fn past_white(text: &[u8]) -> &[u8]
    ensures { Ends (Span white) text.now result.now }
{
    Class::White.split(text).1
}

// How many bytes of text are tested at once.
const BLOCK: usize = 32;

// Whether each byte of the block is text. All are tested, also behind one that is none: without an early return the compiler
// tests many at once.
pub(crate) fn all_text(block: &[u8]) -> bool
    ensures { Decides result (AllOf text_byte block.now) }
{
    block.iter().fold(true, |all, b| all & is_text(*b))
}

// What follows the longest run of text: whole blocks first, on which the speed of long runs rests, and then byte for byte. Blocks are
// taken off the front, since an iterator over chunks would leave their number to be multiplied.
pub(crate) fn past_text(text: &[u8]) -> &[u8]
    ensures { Span text_byte text.now result.now }
{
    let mut left = text;
    while let Some((block, more)) = left.split_first_chunk::<BLOCK>() {
        if !all_text(block) {
            break;
        }
        left = more;
    }
    Class::Text.split(left).1
}

// What follows the first `a` and `b` that stand side by side.
pub(crate) fn past_pair(text: &[u8], a: u8, b: u8) -> Option<&[u8]>
    ensures { Reads (PairForm a b) text.now result }
{
    let at = text.windows(2).position(|w| w[0] == a && w[1] == b)?;
    Some(&text[at + 2..])
}
