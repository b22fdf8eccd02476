//! Boards of tasks that wait for others, in whatever order they are done (GraphBLAS's nonblocking mode).
#![tactic(auto)]

mod admitting;
mod blocks;
mod board;
mod cut;
mod cuts;
mod falling;
mod inputs;
mod look;
mod looking;
mod picking;
mod piece;
mod schedule;
mod slots;

pub use board::Board;
pub use look::{Look, Offer, Refusal};
pub use piece::{Blocks, Given, Piece, Stores, TaskRecipe};
pub use schedule::{Answer, Event, Sight};
