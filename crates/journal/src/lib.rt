//! A log of what was submitted, to which threads add while others read. What its entries say exists in proofs alone:
//! kept is a slot without bytes for each.
#![tactic(auto)]

mod entry;
mod journal;

pub use entry::Entry;
pub use journal::{Log, Naming, Note};
