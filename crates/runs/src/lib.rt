//! Entries that come in order, of which those of one position are joined: the tuples of a build, the edits of a store
//! and the lines of a file.
#![tactic(auto)]

mod joining;

pub use joining::join_runs;
