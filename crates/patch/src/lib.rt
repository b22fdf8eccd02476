//! Entries in any order made into rows, builds, and edits that wait beside a store.
#![tactic(auto)]

mod along;
mod building;
mod edits;
mod gathering;
mod merging;
mod sorted;
mod summers;
mod summing;
mod taking;

pub use building::build;
pub use edits::{Edit, apply_edits};
pub use gathering::gather;
pub use summers::EntrySummer;
pub use summing::sum_entries;
