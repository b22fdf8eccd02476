//! The lines of a script: the words of a line, and the call that they write.
#![tactic(auto)]

mod calls;
mod cutting;
mod fault;
mod gaps;
mod kinds;
mod line;
mod lists;
mod loads;
mod operations;
mod parse;
mod words;

pub use cutting::first_line;
pub use fault::LineFault;
pub use line::{Line, Load};
pub use loads::loaded_file;
pub use parse::parse_line;
pub use words::is_blank;
