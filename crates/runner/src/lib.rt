//! Runners, who do the work that calls ask for, and the simplest of them.
#![tactic(auto)]

mod at_once;
mod borrowed;
mod runner;
mod submitting;
mod ticket;

pub use at_once::AtOnce;
pub use runner::{Failed, Runner};
pub use submitting::submit_accepted;
pub use ticket::Ticket;
