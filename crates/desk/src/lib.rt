//! What all runners over a board share: tickets and their slots, who picks what is done next, and work that is taken,
//! done and given up.
#![tactic(auto)]

mod amounts;
mod cutting;
mod dropping;
mod picker;
mod places;
mod placing;
mod spares;
mod ticket;
mod works;

pub use amounts::{work_in, work_of};
pub use cutting::take_cut;
pub use dropping::give_up;
pub use picker::{Order, Picker};
pub use pieces::{Joining, SpareLists, entries_in, may_stay_apart, united};
pub use places::{notes_of, slot_of};
pub use placing::place;
pub use spares::{Spares, lists_of, long_share, needs_spare};
pub use ticket::Ticket;
pub use works::{joined_of, look, made_of, part_of, share_of, take, work};
