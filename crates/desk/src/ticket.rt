//! Tickets for slots of a board.

/// A slot of a board, the epoch in which it was given, and a note of what was submitted for it.
#[derive(Drop)]
pub struct Ticket<N> {
    pub epoch: u64,
    pub slot: u64,
    pub note: N,
}
