//! Bitmaps: a word for each position of a small shape, and a bit that says whether it is there.
#![tactic(auto)]

mod bitmap;
mod column;
mod full;
mod kernels;
mod making;
mod threads;

pub use bitmap::Bitmap;
pub use making::Words;
pub use threads::{OneThread, OneThreadWithSpare, SeveralThreads, WordMaker};
