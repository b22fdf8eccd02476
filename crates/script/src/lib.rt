//! Scripts of calls: from the bytes of a script to the bytes of its answers.
#![tactic(auto)]

mod environment;
mod loading;
mod printing;
mod replies;
mod resolving;
mod running;
mod sources;
mod text;

pub use lines::{Line, LineFault, Load, loaded_file, parse_line};
pub use mmio::{FileReader, FileWriter, OneThread, threads_of};
pub use patch::EntrySummer;
pub use running::{run, run_by};
pub use session::WordFolder;
pub use sources::Sources;
