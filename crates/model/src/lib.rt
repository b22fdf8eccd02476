//! The definitions that every contract of this repository stands on: objects, operations, faults,
//! runs and texts (in `specs/`), and the types that they share with the code.
#![tactic(auto)]

mod call;
mod entry;
mod found;
mod indices;
mod limits;
mod market;
mod memory;
mod output;
mod regions;
mod shape;
mod status;
mod table;
mod tuples;

pub use call::{
    Act, Call, Desc, Form, OneInput, Operation, Out, Plan, Positions, Region, TwoInputs, WaitMode,
};
pub use entry::Entry;
pub use found::{Lent, Lookup};
pub use indices::IndexList;
pub use limits::{
    GREATEST_DIMENSION, LONGEST_FILE_NAME, LONGEST_LINE, LONGEST_NAME, MOST_FILLED, MOST_OBJECTS,
};
pub use market::{Field, Heading, Misread, Mistake, MmFault, Symmetry};
pub use memory::NoMemory;
pub use output::accumulator_serves;
pub use shape::{Place, Shape, Signature};
pub use status::Status;
pub use tuples::{Tuple, TupleList};
