//! A slow evaluator of calls for tests, over the definitions alone: it does each call at once, one
//! position after the other, and shares the types of calls with their look-ups, the table of operations and the
//! operators alone with what is compared with it.
#![tactic(auto)]

mod acts;
mod answers;
mod builds;
mod effects;
mod environment;
mod faults;
mod grid;
mod heads;
mod inputs;
mod lines;
mod listed;
mod loads;
mod market;
mod numbers;
mod objects;
mod operations;
mod products;
mod regions;
mod sums;
mod text;
mod write_back;

pub use answers::PlainAnswer;
pub use environment::PlainEnvironment;
pub use market::{PlainMatrix, read};
