//! The pieces into which the rows of one task are cut, and joins of what they give.
#![tactic(auto)]

mod cutting;
mod joining;
mod joint;
mod part;
mod pieces;

pub use joining::{Joining, entries_in, join_blocks, may_stay_apart, united};
pub use joint::SpareLists;
pub use part::Part;
pub use pieces::{Pieces, Refused};
