//! What recipes give: blocks of rows of what their operations leave, and the store that they join to.
#![tactic(auto)]

mod bitmaps;
mod block;
mod computing;
mod cutting;
mod elements;
mod evaluation;
mod input;
mod job;
mod joining;
mod moving;
mod operating;
mod output;
mod over;
mod piece;
mod product;
mod reading;
mod sampling;
mod task;

pub use bitmap::{OneThread, OneThreadWithSpare, SeveralThreads};
pub use block::Block;
pub use cutting::{cuts, is_cut};
pub use evaluation::evaluate;
pub use joining::{join, makes_lists};
pub use over::computed_over;
pub use piece::{eval_piece, eval_piece_by, patch_over};
pub use reading::{is_factor, needs_joined};
pub use spgemm::VectorProducts;
