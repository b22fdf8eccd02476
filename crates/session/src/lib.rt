//! Sessions: objects by number, and all calls on them.
#![tactic(auto)]

mod changing;
mod deferring;
mod lending;
mod listing;
mod operating;
mod performing;
mod reading;
mod reply;
mod sessions;

pub use calls::{
    Act, Call, Desc, Obj, OneInput, Operation, Out, Place, Positions, Shape, TwoInputs,
};
pub use elementwise::WordFolder;
pub use model::WaitMode;
pub use reply::Reply;
pub use sessions::Session;
