//! The products of a row of one matrix with another one, and their sums at each column.
#![tactic(auto)]

mod ahead;
mod products;
mod sums;
mod term;

pub use ahead::{AHEAD, look_ahead, pays_ahead};
pub use products::expand;
pub use sums::{push_sum, sum_runs, sum_with};
pub use term::Term;
