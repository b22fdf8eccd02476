//! Objects whose values a runner makes.
#![tactic(auto)]

mod kept;
mod object;
mod table;
mod value;

pub use kept::{Kept, Refusal};
pub use table::{
    Table, edit, finish, give, insert, is_told, put, ready_ticket, remove, settle, signature,
    store, take_ticket, ticket,
};
pub use value::Value;
