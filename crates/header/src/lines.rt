// The lines at the front of a text, one after another. xml's `Children` has the same shape, a rest and a reader; a type for both would
// need a trait for the readers.
ghost use Rattle.std.specs.Prelude.{◌≡◌, length};
ghost use Rattle.std.specs.Iterator.{at_most};
ghost use Rattle.header.specs.Texts.{NextLine};

use crate::text::{Line, first_line};

// What is left of the text is `rest`. The walk ends where no line stands at its front.
#[derive(Clone, Copy)]
pub struct Lines<'a> {
    pub rest: &'a [u8],
}

impl<'a> Lines<'a> {
    pub fn new(text: &'a [u8]) -> Lines<'a>
        ensures { result.rest.now ≡ text.now }
    {
        Lines { rest: text }
    }
}

impl<'a> Iterator for Lines<'a> {
    type Item = Line<'a>;

    ghost next_gives = { NextLine };

    ghost remaining = { λ s. at_most (length s.rest.now) };

    fn next(&mut self) -> Option<Line<'a>> {
        let line = first_line(self.rest)?;
        self.rest = line.rest;
        Some(line)
    }
}
