// A walk over the elements of a document: an element's name and content, its children one by one, its plain text.
// A content is handed out as the part of the text that it is written as, without its element's tags.
ghost use Rattle.std.specs.Prelude.{◌≡◌, ◌+◌, ◌<◌, length, IfSome};
ghost use Rattle.std.specs.Option.{option_map};
ghost use Rattle.xml.specs.Grammar.{Content};
ghost use Rattle.xml.specs.Walks.{Holds, FirstAnswer, FirstOf, TextAnswer, plain};
ghost use Rattle.xml.specs.Children.{WalksChildren};

use crate::element::{DEPTH, element, skip};
use crate::scan::all_text;
use crate::siblings::Children;

// An element: its name, and the text of its content, which is empty for an empty tag.
#[derive(Clone, Copy)]
pub struct Element<'a> {
    pub name: &'a [u8],
    pub content: &'a [u8],
}

// The first child element of a content, and the content that follows it.
#[derive(Clone, Copy)]
pub struct Child<'a> {
    pub element: Element<'a>,
    pub rest: &'a [u8],
}

// The first child element of a content, past text, references and comments. Of bytes that are no content it answers the
// element that they begin with in the same way, if there is one.
pub fn first_child(content: &[u8]) -> Option<Child<'_>>
    ensures answer { FirstAnswer content.now result }
    ensures walk { (c : Content) → Holds content.now c → FirstOf c result }
    ensures forward { IfSome result (λ k. length k.element.content.now + length k.rest.now < length content.now) }
{
    element(skip(content)?, DEPTH)
}

// The children of a content, one by one. Of bytes that are no content it gives the elements that `first_child` finds in them.
pub fn children(content: &[u8]) -> Children<'_>
    ensures whole { result.rest.now ≡ content.now }
    ensures walk { (c : Content) → Holds content.now c → WalksChildren result c }
{
    Children { rest: content }
}

// The bytes of a content that is text alone: no reference, no comment and no child stands in it.
pub fn plain_text(content: &[u8]) -> Option<&[u8]>
    ensures answer { TextAnswer content.now (option_map (λ t. t.now) result) }
    ensures walk { (c : Content) → Holds content.now c → option_map (λ t. t.now) result ≡ plain c }
{
    all_text(content).then_some(content)
}
