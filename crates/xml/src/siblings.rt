// An iterator over the children of a content. header's `Lines` has the same shape, a rest and a reader; a type for both would need a
// trait for the readers.
ghost use Rattle.std.specs.Prelude.{length};
ghost use Rattle.std.specs.Iterator.{at_most};
ghost use Rattle.xml.specs.Children.{walk_steps};

use crate::walk::{Element, first_child};

// The children of a content, in the order in which they stand. What is left of the content is `rest`.
#[derive(Clone, Copy)]
pub struct Children<'a> {
    pub rest: &'a [u8],
}

impl<'a> Iterator for Children<'a> {
    type Item = Element<'a>;

    ghost next_gives = { walk_steps };

    ghost remaining = { λ s. at_most (length s.rest.now) };

    fn next(&mut self) -> Option<Element<'a>> {
        let child = first_child(self.rest)?;
        self.rest = child.rest;
        Some(child.element)
    }
}
