//! Matrix Market files: matrices from their bytes, and objects as bytes.
#![tactic(auto)]

mod banner;
mod collects;
mod digits;
mod entry;
mod faults;
mod fronts;
mod head;
mod listing;
mod parts;
mod reading;
mod texts;
mod threads;
mod told;
mod usual;
mod values;
mod writing;

pub use bitmap::{OneThread, SeveralThreads};
pub use model::{Mistake, MmFault};
pub use reading::{FileReader, read};
pub use threads::threads_of;
pub use writing::{FileWriter, write, write_by};
