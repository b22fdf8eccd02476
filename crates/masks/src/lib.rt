//! Masks: which positions a call writes (the mask of a GraphBLAS call, with `GrB_STRUCTURE` and
//! `GrB_COMP`), and what it leaves there (`GrB_REPLACE`).
#![tactic(auto)]

mod alike;
mod append;
mod blocks;
mod few;
mod full;
mod in_place;
mod join;
mod keep;
mod marked;
mod merge;
mod pair;
mod sparse;
mod view;
mod write;

pub use alike::{are_alike, join_alike};
pub use append::append_rows;
pub use blocks::keep_block;
pub use in_place::write_into;
pub use join::{Joining, join_rows};
pub use keep::{keep_fiber, place_from};
pub use marked::MarkedMask;
pub use view::{Mask, MaskTest, ReadMask, SparseMask, StoredMask};
pub use write::write_back;
