//! Calls on objects by number: their checks, and the recipes of their operations.
#![tactic(auto)]

mod checking;
mod made;
mod obj;
mod operation;
mod recipe;
mod role;
mod turns;

pub use checking::{
    check, check_build, check_create, check_dup, check_place, check_reduce, check_resize,
    check_set, check_there, check_wait,
};
pub use model::{
    Act, Call, Desc, Form, IndexList, OneInput, Operation, Out, Place, Positions, Region, Shape,
    Signature, Tuple, TupleList, TwoInputs,
};
pub use obj::{Obj, Shapes};
pub use operation::{check_operate, check_two};
pub use recipe::{Accepted, Computation, Given, Patch, Recipe, Resize, Transpose};
pub use role::{Role, Roles, by_role, by_role_of_two, lent_by_role};
pub use turns::{Turns, straight};
