//! A runner that does all work on the calling thread, when a store is asked for.
#![tactic(auto)]

mod inline;
mod work;

pub use inline::Inline;
