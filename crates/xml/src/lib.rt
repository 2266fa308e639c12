// The XML block of a CPHD 1.1.0 file: whether it is a document, and a walk over its elements.
#![tactic(auto)]

mod class;
mod document;
mod element;
mod scan;
mod siblings;
mod tag;
mod walk;

pub use document::{root, well_formed};
pub use siblings::Children;
pub use walk::{Child, Element, children, first_child, plain_text};
