//! Histories of what was submitted to a runner. They exist in proofs alone: what is kept is one word, their length.
#![tactic(auto)]

mod history;
mod made;
mod noted;
mod rule;

pub use history::{History, Naming, Note};
pub use made::Made;
pub use noted::Noted;
