//! Gates before pieces of work.

/// Is passed before each piece of work, by the thread that does it, which holds no lock. A test may hold it there.
pub trait Gate {
    /// A thread is to do a piece of a slot's task.
    fn enter(&self, slot: u64, piece: u64);
}

/// A gate that holds nobody.
#[derive(Clone, Copy, Debug)]
pub struct Open;

impl Gate for Open {
    fn enter(&self, _slot: u64, _piece: u64) {}
}
