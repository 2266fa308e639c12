// The header of a CPHD 1.1.0 file: its lines, its keys, and where its blocks stand.
#![tactic(auto)]

mod entries;
mod extent;
mod header;
mod keys;
mod lines;
mod reader;
mod text;
mod values;

pub use entries::FILE_TYPE;
pub use extent::Extent;
pub use header::Header;
pub use lines::Lines;
pub use reader::head;
pub use text::{Line, TERMINATOR, first_line};
