//! How far the tasks of a board are, which wait for which, which of them can be taken, and who still needs the store of
//! each.
#![tactic(auto)]

mod inputs;
mod reads;
mod ready;
mod sharing;
mod slot;
mod stage;
mod waiting;
mod waking;

pub use inputs::Inputs;
pub use reads::{
    hold_less, hold_more, is_unasked, is_used, read_less, read_more, release, release_each,
};
pub use ready::{insert, place_of, remove_at, withdraw};
pub use sharing::{again, claim, share};
pub use slot::Slot;
pub use stage::{
    Stage, are_made, is_done, is_failed, is_joining, is_made, is_running, is_unfinished,
    is_untaken, put, store_of, take_recipe, take_store,
};
pub use waiting::{Readers, wait_for};
pub use waking::{can_fail, wake};
