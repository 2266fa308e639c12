// Where a product's bytes come from: sources under a stamp, shelves that can be restocked, and the refusals of every call.
#![tactic(auto)]

mod fixed;
mod joined;
mod memory;
mod memory_shelf;
mod reads;
mod refusal;
mod source;

pub use fixed::FixedFile;
pub use joined::JoinedShelf;
pub use memory::MemoryShelf;
pub use refusal::{Reason, Refusal};
pub use source::{Shelf, Source};
