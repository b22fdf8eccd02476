//! What accepted calls answer.
use calls::Obj;

/// What an accepted call answers beside that it was done.
#[derive(Clone, Copy)]
pub enum Reply {
    Done,
    /// The object that was made.
    Made(Obj),
    /// The value of an entry, or the sum of all.
    Value(i128),
    /// The number of entries.
    Count(u64),
}
