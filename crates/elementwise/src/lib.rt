//! Kernels that go position by position, and sums of rows: unions and intersections of two stores, a
//! function of each entry, the entries that pass a test, and reductions. They read words as they are
//! stored: an operator looks at the value that a word stands for in its domain.
#![tactic(auto)]

mod apply;
mod bitmaps;
mod folding;
mod indexed;
mod intersect;
mod mapping;
mod pairs;
mod parts;
mod passing;
mod reduce;
mod select;
mod union;

pub use apply::apply_rows;
pub use bitmaps::{apply_bitmap, select_bitmap};
pub use folding::WordFolder;
pub use intersect::intersect_rows;
pub use reduce::{reduce_all, reduce_all_by, reduce_rows};
pub use select::select_rows;
pub use union::union_rows;
