//! Blocks of what recipes give.

use store::{RowBlock, Store};

/// Some of what a recipe gives.
#[derive(Drop)]
pub enum Block {
    /// The rows that were asked for.
    Rows(RowBlock),
    /// All rows: of a recipe whose kind isn't cut into pieces.
    Whole(Store),
}
