// Worked examples that the contracts decide: what each answers is proved, and so is the law behind it.
#![tactic(auto)]

mod depths;
mod headers;
mod refusals;
mod restocks;

pub use depths::{deep_enough, too_deep};
pub use headers::{most_digits, no_blanks, other_version};
pub use refusals::{refused_alike, same_reason};
pub use restocks::{at_the_end, restocked_in_place, shorter_restock};
