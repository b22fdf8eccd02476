//! Objects as lists of entries.

use algebra::Domain;
use model::{Entry, Shape};

/// An object: its name, its domain, its shape, and its entries in any order.
#[derive(Drop)]
pub struct PlainObject {
    pub(crate) name: String,
    pub(crate) domain: Domain,
    pub(crate) shape: Shape,
    pub(crate) entries: Vec<Entry>,
}
