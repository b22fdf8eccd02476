//! Runs scripts whose work is put off, on the calling thread or by threads.
#![tactic(auto)]

mod pooled;
mod running;

pub use pooled::{run_over_pool, run_pooled};
pub use running::{run, run_over};
