//! The lists of a matrix, in one part or in several.
ghost use Rattle.std.specs.Prelude.{◌≡◌, ◌<◌, ◌^◌, length};
ghost use Rattle.std.specs.List.{All, flat_map};
ghost use Rattle.model.specs.Entries.{InOrder, entries_between, entries_of};
ghost use Rattle.model.specs.Object.{IsWithin};
ghost use Rattle.store.specs.Stored.{content_of};

use crate::Sparse;
use std::marker::Model;
use std::slice;

/// The entries of a matrix as lists: those that it has in one, or those of its blocks, one behind the other. It is for
/// whoever goes along all entries, and takes no memory.
#[derive(Drop)]
pub struct Parts<'a> {
    pub(crate) rows: u64,
    pub(crate) cols: u64,
    pub(crate) stores: &'a [Sparse],
}

impl<'a> Model for Parts<'a> {
    ghost use Rattle.store.specs.Blocks.{AreStored, entries_in_parts};
    ghost use Rattle.store.specs.Stored.{Stored};

    ghost Value = { Stored };

    ghost view = { λ p. record { rows = p.rows; cols = p.cols; entries = entries_in_parts p.stores.now } };

    ghost invariant = { λ p. AreStored p.rows p.cols p.stores.now };
}

impl<'a> Parts<'a> {
    /// Lists as the only part.
    pub fn of_lists(lists: &'a Sparse) -> Parts<'a>
        ensures { result ≡ lists.now }
    {
        Parts {
            rows: lists.rows,
            cols: lists.cols,
            stores: slice::from_ref(lists),
        }
    }

    /// The number of rows.
    pub fn rows(&self) -> u64
        ensures rows { result ≡ self.now.rows }

        // What is true of every store, for a caller, who sees no field.
        ensures within { IsWithin self.now.rows self.now.cols (content_of self.now) }
    {
        self.rows
    }

    /// The number of columns.
    pub fn cols(&self) -> u64
        ensures { result ≡ self.now.cols }
    {
        self.cols
    }

    /// The number of entries (`GrB_Matrix_nvals`). Its time grows with the number of parts.
    pub fn nvals(&self) -> u64
        ensures { result ≡ length (entries_of self.now.rows self.now.cols (content_of self.now)) }
    {
        let mut count = 0;
        for k in 0..self.stores.len() {
            count += self.stores[k].nvals();
        }
        count
    }

    /// The parts, each as a store of all rows, so that their entries follow one another.
    pub fn stores(&self) -> &'a [Sparse]
        ensures shapes { All (λ s. (s.rows ≡ self.now.rows) × (s.cols ≡ self.now.cols)) result.now }
        ensures entries { flat_map (λ s. entries_between 0 s.rows s.cols (content_of s)) result.now
            ≡ entries_between 0 self.now.rows self.now.cols (content_of self.now) }

        // What is true of every store.
        ensures order { InOrder (entries_between 0 self.now.rows self.now.cols (content_of self.now)) }
        ensures fits { length (entries_between 0 self.now.rows self.now.cols (content_of self.now)) < 2 ^ 64 }
    {
        self.stores
    }
}
