//! The terms of a row.

/// A word that counts towards the sum at a column of one row.
#[derive(Clone, Copy, Debug, PartialEq, Eq)]
pub struct Term {
    pub col: u64,
    pub word: u64,
}
