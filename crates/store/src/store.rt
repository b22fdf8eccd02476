//! Stores: what an object holds, in one of three forms.
ghost use Rattle.std.specs.Prelude.{◌≡◌, ℕ, ◌<◌, ◌≤◌, None, length, OnOk, OnErr, IfOk, IfSome};
ghost use Rattle.std.specs.Option.{option_or};
ghost use Rattle.model.specs.Entries.{entries_of};
ghost use Rattle.model.specs.Object.{with_entry, without_entry, IsWithin};
ghost use Rattle.store.specs.Forms.{of_bitmap};

use crate::forms::{put_into, sparse_of};
use crate::settling::settled;
use crate::{Blocks, FiberLists, Parts, RowBlock, Sparse};
use bitmap::Bitmap;
use model::NoMemory;
use std::alloc::Global;
use std::marker::Model;
use std::mem;
use std::ops::Range;

/// What a matrix holds (`GrB_Matrix` of GraphBLAS C API 2.0): its number of rows and of columns, and its entries, at
/// most one at a position. They are kept in lists or, where many positions have an entry, as a bitmap; a matrix that
/// was made in pieces may have lists a piece, until somebody needs them in one. What a store holds is the same in any
/// form.
#[derive(Drop)]
pub struct Store {
    kept: Kept,
}

/// The forms of a store.
#[derive(Drop)]
pub(crate) enum Kept {
    Sparse(Sparse),
    Bitmap(Bitmap),
    Blocks(Blocks),
}

/// A store as it is kept, for whoever has a way of its own for a form.
#[derive(Clone, Copy)]
pub enum Form<'a> {
    /// As lists.
    Sparse(&'a Sparse),
    /// As a bitmap.
    Bitmap(&'a Bitmap),
    /// As lists of several blocks of rows.
    Blocks(&'a Blocks),
}

/// A store's entries as lists: those that it has, or such as were made of another form.
#[derive(Drop)]
pub enum AsSparse<'a> {
    /// Those that the store has.
    Lent(&'a Sparse),
    /// Those that were made of its bitmap or blocks.
    Made(Sparse),
}

impl AsSparse<'_> {
    ghost use Rattle.store.specs.Forms.{sparse_of};

    /// The lists.
    pub fn get(&self) -> &Sparse
        ensures { result.now ≡ sparse_of self.now }
    {
        match self {
            AsSparse::Lent(sparse) => sparse,
            AsSparse::Made(sparse) => sparse,
        }
    }
}

impl Model for Store {
    ghost use Rattle.store.specs.Forms.{kept_in};
    ghost use Rattle.store.specs.Stored.{Stored};

    ghost Value = { Stored };

    ghost view = { λ s. kept_in s.kept };
}

impl Store {
    ghost use Rattle.store.specs.Forms.{lent_in, of_bitmap, sparse_of};
    ghost use Rattle.store.specs.Stored.{AgreesIn, block_content, content_of};

    /// A store of `rows` rows and `cols` columns with no entry. It takes no memory.
    pub fn new(alloc: Global, rows: u64, cols: u64) -> Store
        ensures rows { result.rows ≡ rows }
        ensures cols { result.cols ≡ cols }
        ensures content { (i j : ℕ) → content_of result i j ≡ None }
    {
        Store::from_sparse(Sparse::new(alloc, rows, cols))
    }

    /// The store that lists are.
    pub fn from_sparse(sparse: Sparse) -> Store
        ensures { result ≡ sparse }
    {
        Store {
            kept: Kept::Sparse(sparse),
        }
    }

    /// The store that a bitmap is.
    pub fn from_bitmap(bitmap: Bitmap) -> Store
        ensures { result ≡ of_bitmap bitmap }
    {
        Store {
            kept: Kept::Bitmap(bitmap),
        }
    }

    /// The store that blocks are.
    pub fn from_blocks(blocks: Blocks) -> Store
        ensures { result ≡ blocks }
    {
        Store {
            kept: Kept::Blocks(blocks),
        }
    }

    /// The store of `rows` rows with the entries of a block, whose lists it takes over without a copy.
    pub fn from_block(rows: u64, block: RowBlock) -> Store
        requires { block.past ≤ rows }
        ensures rows { result.rows ≡ rows }
        ensures cols { result.cols ≡ block.cols }
        ensures content { (i j : ℕ) → content_of result i j ≡ block_content block i j }
        ensures within { IsWithin result.rows result.cols (content_of result) }
    {
        Store::from_sparse(Sparse::from_block(rows, block))
    }

    /// A store with the same shape and entries, in memory of its own. Blocks become lists.
    pub fn try_clone(&self) -> Result<Store, NoMemory>
        ensures { IfOk result (λ store. store ≡ self.now) }
    {
        let kept = match &self.kept {
            Kept::Sparse(sparse) => Kept::Sparse(sparse.try_clone()?),
            Kept::Bitmap(bitmap) => Kept::Bitmap(bitmap.try_clone()?),
            Kept::Blocks(blocks) => Kept::Sparse(blocks.joined()?),
        };
        Ok(Store { kept })
    }

    /// The list of its words and, where its entries are lists, that of their inner indices, for whoever has a use for
    /// the memory; those of the first of several blocks.
    pub fn into_memory(self) -> (Vec<u64>, Option<Vec<u64>>) {
        match self.kept {
            Kept::Sparse(sparse) => {
                let FiberLists { inner, words, .. } = sparse.lists;
                (words, Some(inner))
            }
            Kept::Bitmap(bitmap) => (bitmap.into_words(), None),
            Kept::Blocks(blocks) => blocks.into_memory(),
        }
    }

    /// The store in the form in which it is kept.
    #[inline(always)]
    pub fn form(&self) -> Form<'_>
        ensures { lent_in result ≡ self.now }
    {
        match &self.kept {
            Kept::Sparse(sparse) => Form::Sparse(sparse),
            Kept::Bitmap(bitmap) => Form::Bitmap(bitmap),
            Kept::Blocks(blocks) => Form::Blocks(blocks),
        }
    }

    /// Its entries as lists, in one part or in several; None where they are a bitmap.
    pub fn parts(&self) -> Option<Parts<'_>>
        ensures { IfSome result (λ parts. parts ≡ self.now) }
    {
        match &self.kept {
            Kept::Sparse(sparse) => Some(Parts::of_lists(sparse)),
            Kept::Bitmap(_) => None,
            Kept::Blocks(blocks) => Some(blocks.as_parts()),
        }
    }

    /// Its entries as lists, for whoever goes along these. Lists that are made of a bitmap or of blocks take time and
    /// memory for all entries.
    pub fn as_sparse(&self, alloc: Global) -> Result<AsSparse<'_>, NoMemory>
        ensures { IfOk result (λ lists. sparse_of lists ≡ self.now) }
    {
        match &self.kept {
            Kept::Sparse(sparse) => Ok(AsSparse::Lent(sparse)),
            Kept::Bitmap(bitmap) => Ok(AsSparse::Made(sparse_of(alloc, bitmap)?)),
            Kept::Blocks(blocks) => Ok(AsSparse::Made(blocks.joined()?)),
        }
    }

    /// Lists of the same shape that have its entries in a range of rows, for whoever goes along these rows alone: of
    /// blocks the one that has all of them, where one has, or those that have some, joined; else as `as_sparse` does.
    pub fn lists_in(&self, alloc: Global, range: &Range<u64>) -> Result<AsSparse<'_>, NoMemory>
        ensures { IfOk result (λ lists. AgreesIn range.now.start range.now.end (sparse_of lists) self.now) }
    {
        let Kept::Blocks(blocks) = &self.kept else {
            return self.as_sparse(alloc);
        };
        match blocks.part_in(range) {
            Some(part) => Ok(AsSparse::Lent(part)),
            None => Ok(AsSparse::Made(blocks.joined_rows(range)?)),
        }
    }

    /// The number of rows.
    pub fn rows(&self) -> u64
        ensures rows { result ≡ self.now.rows }

        // What is true of every store, for a caller, who sees no field.
        ensures within { IsWithin self.now.rows self.now.cols (content_of self.now) }
    {
        match &self.kept {
            Kept::Sparse(sparse) => sparse.rows(),
            Kept::Bitmap(bitmap) => bitmap.rows(),
            Kept::Blocks(blocks) => blocks.rows(),
        }
    }

    /// The number of columns.
    pub fn cols(&self) -> u64
        ensures { result ≡ self.now.cols }
    {
        match &self.kept {
            Kept::Sparse(sparse) => sparse.cols(),
            Kept::Bitmap(bitmap) => bitmap.cols(),
            Kept::Blocks(blocks) => blocks.cols(),
        }
    }

    /// The number of entries (`GrB_Matrix_nvals`).
    pub fn nvals(&self) -> u64
        ensures { result ≡ length (entries_of self.now.rows self.now.cols (content_of self.now)) }
    {
        match &self.kept {
            Kept::Sparse(sparse) => sparse.nvals(),
            Kept::Bitmap(bitmap) => bitmap.nvals(),
            Kept::Blocks(blocks) => blocks.nvals(),
        }
    }

    /// The word at row `i` and column `j`, where there is one. Its time is constant in a bitmap, and else grows with
    /// the logarithm of the number of entries.
    #[inline(always)]
    pub fn get(&self, i: u64, j: u64) -> Option<u64>
        ensures { result ≡ content_of self.now i j }
    {
        match &self.kept {
            Kept::Sparse(sparse) => sparse.get(i, j),
            Kept::Bitmap(bitmap) => bitmap.get(i, j),
            Kept::Blocks(blocks) => blocks.get(i, j),
        }
    }

    /// Sets the word at row `i` and column `j`: in a bitmap in constant time, and in lists as `Sparse::set` does, which
    /// blocks are joined to for a new entry. Where there is an entry, no memory is taken.
    pub fn set(&mut self, i: u64, j: u64, word: u64) -> Result<(), NoMemory>
        requires row { i < self.old.rows }
        requires col { j < self.old.cols }
        ensures content { OnOk result ((p q : ℕ)
            → content_of self.new p q ≡ with_entry (content_of self.old) i j word p q) }
        ensures rows { self.new.rows ≡ self.old.rows }
        ensures cols { self.new.cols ≡ self.old.cols }
        ensures refused { OnErr result (self.new ≡ self.old) }

        // Only a new entry may be refused.
        ensures absent { OnErr result (content_of self.old i j ≡ None) }
    {
        match &mut self.kept {
            Kept::Sparse(sparse) => sparse.set(i, j, word),
            Kept::Bitmap(bitmap) => {
                bitmap.set(i, j, word);
                Ok(())
            }
            Kept::Blocks(blocks) => {
                if blocks.overwrite(i, j, word) {
                    return Ok(());
                }
                let mut sparse = blocks.joined()?;
                sparse.set(i, j, word)?;
                self.kept = Kept::Sparse(sparse);
                Ok(())
            }
        }
    }

    /// Puts the entries of a block into a store with one column, each over the one at its position or as a new one:
    /// into a bitmap in the time of these entries and without memory, and into lists as `Sparse::put_block` does, which
    /// blocks are joined to.
    pub fn put_block(&mut self, block: &RowBlock) -> Result<(), NoMemory>
        requires column { self.old.cols ≡ 1 }
        requires cols { block.now.cols ≡ 1 }
        requires past { block.now.past ≤ self.old.rows }
        ensures content { OnOk result ((i j : ℕ)
            → content_of self.new i j ≡ option_or (block_content block.now i j) (content_of self.old i j)) }
        ensures rows { self.new.rows ≡ self.old.rows }
        ensures cols { self.new.cols ≡ self.old.cols }
        ensures refused { OnErr result (self.new ≡ self.old) }
    {
        match &mut self.kept {
            Kept::Sparse(sparse) => sparse.put_block(block),
            Kept::Bitmap(bitmap) => {
                put_into(bitmap, block);
                Ok(())
            }
            Kept::Blocks(blocks) => {
                let mut sparse = blocks.joined()?;
                sparse.put_block(block)?;
                self.kept = Kept::Sparse(sparse);
                Ok(())
            }
        }
    }

    /// Removes the entry at row `i` and column `j`, where there is one, and takes no memory. In lists it moves those
    /// behind it.
    pub fn remove(&mut self, i: u64, j: u64)
        ensures content { (p q : ℕ) → content_of self.new p q ≡ without_entry (content_of self.old) i j p q }
        ensures rows { self.new.rows ≡ self.old.rows }
        ensures cols { self.new.cols ≡ self.old.cols }
    {
        match &mut self.kept {
            Kept::Sparse(sparse) => sparse.remove(i, j),
            Kept::Bitmap(bitmap) => bitmap.remove(i, j),
            Kept::Blocks(blocks) => blocks.remove(i, j),
        }
    }

    /// Keeps lists as a bitmap from now on, where they have entries at many positions, and a bitmap of a column that
    /// has few as lists. Where there is no memory for that, a store stays as it is, and so do blocks.
    pub fn settle(&mut self, alloc: Global)
        ensures { self.new ≡ self.old }
    {
        // The store that stands in takes no memory.
        let store = mem::replace(self, Store::new(alloc, 0, 0));
        self.kept = match settled(alloc, store.kept) {
            Ok(kept) | Err(kept) => kept,
        };
    }
}
