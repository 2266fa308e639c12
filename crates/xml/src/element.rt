// Elements and their content.
ghost use Rattle.xml.specs.Forms.{SkipForm, ContentForm};
ghost use Rattle.xml.specs.Reads.{Reads};
ghost use Rattle.xml.specs.Elements.{ElementAnswer};

use crate::class::is_text;
use crate::scan::past_text;
use crate::tag::{comment, end_tag, reference, start_tag};
use crate::walk::{Child, Element};

// How many elements may stand inside one another, the root included.
pub(crate) const DEPTH: u8 = 16;

// What follows text, references and comments.
pub(crate) fn skip(text: &[u8]) -> Option<&[u8]>
    ensures { Reads SkipForm text.now result }
{
    // What is left is taken by a loop: an iterator of such pieces, each of which may be refused, would be longer.
    let mut left = text;
    loop {
        left = match left {
            [b, ..] if is_text(*b) => past_text(left),
            [b'&', ..] => reference(left)?,
            [b'<', b'!', ..] => comment(left)?,
            _ => return Some(left),
        };
    }
}

// The element that the text begins with, in which at most `depth` elements stand inside one another, and what follows it.
#[cycle(content_element)]
pub(crate) fn element(text: &[u8], depth: u8) -> Option<Child<'_>>
    ensures { ElementAnswer depth text.now result }
{
    if depth == 0 {
        return None;
    }
    let (name, tag) = start_tag(text)?;
    if let Some(rest) = tag.strip_prefix(b"/>") {
        let content = &tag[..0];
        return Some(Child {
            element: Element { name, content },
            rest,
        });
    }
    let inner = tag.strip_prefix(b">")?;
    let close = content(inner, depth - 1)?;
    let rest = end_tag(close, name)?;
    let content = &inner[..inner.len() - close.len()];
    Some(Child {
        element: Element { name, content },
        rest,
    })
}

// The end tag, and what follows it, behind the content that the text begins with.
#[cycle(content_element)]
fn content(text: &[u8], depth: u8) -> Option<&[u8]>
    ensures { Reads (ContentForm depth) text.now result }
{
    // What is left is taken by a loop: an iterator of such pieces, each of which may be refused, would be longer.
    let mut left = text;
    loop {
        let next = skip(left)?;
        if next.starts_with(b"</") {
            return Some(next);
        }
        left = element(next, depth)?.rest;
    }
}
