//! A runner whose work is done by threads, in whatever order its inputs permit.
#![tactic(auto)]

mod fetching;
mod gate;
mod named;
mod pool;
mod serving;
mod shared;
mod spares;
mod starting;
mod uniting;

pub use gate::{Gate, Open};
pub use pool::Pool;
