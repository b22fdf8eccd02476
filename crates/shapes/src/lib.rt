//! Operations that move entries: transposes, entries at lists of rows and columns, entries and values put
//! there, and other shapes.
#![tactic(auto)]

mod assigning;
mod buckets;
mod collecting;
mod counting;
mod extracting;
mod few;
mod filling;
mod listing;
mod members;
mod places;
mod putting;
mod resizing;
mod rows;
mod scattering;
mod spans;
mod transposing;

pub use assigning::assign_rows;
pub use extracting::extract_rows;
pub use filling::assign_const_rows;
pub use putting::put_rows;
pub use resizing::resize;
pub use transposing::{transpose, transpose_range};
