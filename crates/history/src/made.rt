//! What recipes make, as data.
use model::{Entry, Signature};
use std::collections::LinkedList;

/// An object: what is known of it, and its entries, row by row. No value of it is ever made.
pub struct Made {
    pub of: Signature,
    pub entries: LinkedList<Entry>,
}
