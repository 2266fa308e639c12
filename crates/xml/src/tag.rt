// Tags, comments and references: names, attributes, white space, and what stands in quotes.
ghost use Rattle.std.specs.Prelude.{◌≡◌, ℕ, ◌<◌, true, length, IfSome};
ghost use Rattle.xml.specs.Bytes.{name_start_byte, is_in};
ghost use Rattle.xml.specs.Forms.{Named, ValueForm, AttributeForm, TailForm, Start, EndForm, CommentForm, EntityForm};
ghost use Rattle.xml.specs.Reads.{Reads, Tells};

use crate::class::{Class, starts_name};
use crate::scan::{past_pair, past_white};
use classes::ByteClass;

// A name that goes on with bytes of the class, and what follows it. The first byte is tested before any other is read.
fn name(text: &[u8], class: Class) -> Option<(&[u8], &[u8])>
    requires { (b : ℕ) → name_start_byte b ≡ true → is_in class b ≡ true }
    ensures { Tells (Named (is_in class)) text.now result }
{
    match text {
        [first, ..] if starts_name(*first) => Some(class.split(text)),
        _ => None,
    }
}

// What follows a value in double or single quotes.
fn value(text: &[u8]) -> Option<&[u8]>
    ensures { Reads ValueForm text.now result }
{
    match text {
        [quote @ (b'"' | b'\''), rest @ ..] => {
            let (_, rest) = Class::Value(*quote).split(rest);
            rest.strip_prefix(&[*quote])
        }
        _ => None,
    }
}

// What follows one attribute.
fn attribute(text: &[u8]) -> Option<&[u8]>
    ensures { Reads AttributeForm text.now result }
{
    let (_, rest) = name(text, Class::AttributeName)?;
    let rest = past_white(rest).strip_prefix(b"=")?;
    value(past_white(rest))
}

// The end of a tag, from its `>` or `/>` on, past its attributes and white space.
fn tail(text: &[u8]) -> Option<&[u8]>
    ensures { Reads TailForm text.now result }
{
    // What is left is taken by a loop: an iterator of such pieces, each of which may be refused, would be longer.
    let mut left = text;
    loop {
        let (space, rest) = Class::White.split(left);
        match rest {
            [b'>' | b'/', ..] => return Some(rest),
            _ if space.is_empty() => return None,
            _ => left = attribute(rest)?,
        }
    }
}

// The name of a start tag or an empty tag, and its end, from its `>` or `/>` on.
pub(crate) fn start_tag(text: &[u8]) -> Option<(&[u8], &[u8])>
    ensures { Tells Start text.now result }
{
    let text = text.strip_prefix(b"<")?;
    let (name, rest) = name(text, Class::Name)?;
    Some((name, tail(rest)?))
}

// What follows an end tag of the name. Always inlined: where its answer goes through memory, short elements take a third longer.
#[inline(always)]
pub(crate) fn end_tag<'a>(text: &'a [u8], of: &[u8]) -> Option<&'a [u8]>
    ensures { Reads (EndForm of.now) text.now result }
{
    let rest = text.strip_prefix(b"</")?;
    let rest = rest.strip_prefix(of)?;
    past_white(rest).strip_prefix(b">")
}

// What follows a comment. A slice pattern: with `strip_prefix` a short comment takes a sixth more instructions.
pub(crate) fn comment(text: &[u8]) -> Option<&[u8]>
    ensures reads { Reads CommentForm text.now result }
    ensures forward { IfSome result (λ r. length r.now < length text.now) }
{
    let [b'<', b'!', b'-', b'-', body @ ..] = text else {
        return None;
    };
    past_pair(body, b'-', b'-')?.strip_prefix(b">")
}

// The five references.
const REFERENCES: [&[u8]; 5] = [b"&lt;", b"&gt;", b"&amp;", b"&quot;", b"&apos;"];

// What follows a reference.
pub(crate) fn reference(text: &[u8]) -> Option<&[u8]>
    ensures reads { Reads EntityForm text.now result }
    ensures forward { IfSome result (λ r. length r.now < length text.now) }
{
    // A `for` over the table: a match on their bytes, or a chain of `or_else`, is not proved.
    for written in REFERENCES {
        if let Some(rest) = text.strip_prefix(written) {
            return Some(rest);
        }
    }
    None
}
