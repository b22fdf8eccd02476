//! What the calling thread and the workers of a pool hold in turn: the tasks that wait, who sleeps, and what comes of
//! work that was done.
#![tactic(auto)]

mod crew;
mod cutting;
mod demand;
mod ending;
mod tasks;
mod work;

pub use crew::{Crew, SHARE};
pub use cutting::Cutting;
pub use demand::Demand;
pub use tasks::Tasks;
pub use work::{ENOUGH_TO_CUT, Finished, Joint, Left, Outcome, Reading, Work};
