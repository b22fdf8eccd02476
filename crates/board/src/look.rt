//! What a board answers.

use calls::Recipe;
use std::sync::Arc;
use store::Store;

/// Why an event was refused; it changed nothing.
#[derive(Clone, Copy, Debug, PartialEq, Eq)]
pub enum Refusal {
    /// What it names isn't there, or isn't in a state for it.
    Stranger,
    /// The piece was given before.
    Twice,
    NoMemory,
}

/// What there is of a slot.
#[derive(Clone, Copy)]
pub enum Look<'a> {
    /// Its store is to come.
    Unfinished,
    Done(&'a Arc<Store>),
    Failed,
    /// Its store was there, and nobody needs it, or no slot has the number.
    Gone,
}

/// A slot of which a piece can be taken.
#[derive(Clone, Copy)]
pub struct Offer<'a> {
    pub number: u64,
    /// How many rows its task makes.
    pub rows: u64,
    /// The recipe of its task, where nobody took that.
    pub recipe: Option<&'a Recipe>,
}
