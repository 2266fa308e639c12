// A whole document.
ghost use Rattle.std.specs.Prelude.{Decides, MatchOption};
ghost use Rattle.xml.specs.Forms.{MiscForm, DeclarationForm};
ghost use Rattle.xml.specs.Grammar.{IsDocument, OneTree};
ghost use Rattle.xml.specs.Reads.{Reads};
ghost use Rattle.xml.specs.Walks.{RootIs, RootAnswer};

use crate::element::{DEPTH, element};
use crate::scan::{past_pair, past_white};
use crate::tag::comment;
use crate::walk::Element;
use shelf::{Reason, Refusal};

// What follows white space and comments.
fn misc(text: &[u8]) -> Option<&[u8]>
    ensures { Reads MiscForm text.now result }
{
    // What is left is taken by a loop: an iterator of such pieces, each of which may be refused, would be longer.
    let mut left = text;
    loop {
        let next = past_white(left);
        if !next.starts_with(b"<!") {
            return Some(next);
        }
        left = comment(next)?;
    }
}

// What follows the declaration, which may be left out.
fn declaration(text: &[u8]) -> Option<&[u8]>
    ensures { Reads DeclarationForm text.now result }
{
    match text.strip_prefix(b"<?xml") {
        Some(body) => past_pair(body, b'?', b'>'),
        None => Some(text),
    }
}

// The root of the document that the text is, if it is one.
fn document_root(text: &[u8]) -> Option<Element<'_>>
    ensures { MatchOption result (IsDocument text.now → ⊥) (λ e. RootIs text.now e.name.now e.content.now) }
{
    let head = declaration(text)?;
    let start = misc(head)?;
    let root = element(start, DEPTH)?;
    let last = misc(root.rest)?;
    if !last.is_empty() {
        return None;
    }
    Some(root.element)
}

// Whether the text is a document. It is that of one tree at most.
pub fn well_formed(text: &[u8]) -> bool
    ensures answer { Decides result (IsDocument text.now) }
    ensures one { OneTree text.now }
{
    document_root(text).is_some()
}

// The root of the document that the text is, or the refusal of a text that is none.
pub fn root(text: &[u8]) -> Result<Element<'_>, Refusal>
    ensures { RootAnswer text.now result }
{
    document_root(text).ok_or(Reason::XmlMalformed.at(0))
}
