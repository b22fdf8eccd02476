//! Entries as fibers that lie flat.
ghost use Rattle.std.specs.Prelude.{◌≡◌, ◌≢◌, ◌++◌, ℕ, ◌<◌, ◌≤◌, None, length, OnOk, OnErr, IfOk};
ghost use Rattle.std.specs.Option.{option_or};
ghost use Rattle.model.specs.Entries.{InOrder, IsInside, entries_between, entries_of, row_entries, word_at};
ghost use Rattle.model.specs.Object.{with_entry, without_entry, IsWithin};
ghost use Rattle.model.specs.Reductions.{all_words};

use crate::edits::{put, take_out};
use crate::finding::{NO_HINT, fiber, find, row_of_column};
use crate::putting::put_column;
use crate::ranges::{column_between, fibers_between, outer_past, row_past};
use crate::{FiberLists, Fibers, RowBlock, Rows};
use model::NoMemory;
use std::alloc::Global;
use std::marker::Model;
use std::ops::Range;
use std::thread::Threads;

/// What a matrix holds, as lists of its entries: a number of rows and of columns, and entries, at most one at a
/// position. They lie row by row, and where there is one column as one fiber; no caller sees which.
#[derive(Drop)]
pub struct Sparse {
    pub(crate) rows: u64,
    pub(crate) cols: u64,
    pub(crate) lists: FiberLists,
}

impl Model for Sparse {
    ghost use Rattle.store.specs.Fibers.{entries_in};
    ghost use Rattle.store.specs.Stored.{AreHeld, Stored, along};

    ghost Value = { Stored };

    ghost view = { λ s. record { rows = s.rows; cols = s.cols; entries = along s.cols (entries_in s.lists) } };

    ghost invariant = { λ s. AreHeld 0 s.rows s.cols s.lists.ends.items s.lists.inner.items s.lists.words.items };
}

impl Sparse {
    ghost use Rattle.std.specs.List.{All};
    ghost use Rattle.model.specs.Entries.{Precedes};
    ghost use Rattle.store.specs.Fibers.{AreFlat, entries_along, entries_in};
    ghost use Rattle.store.specs.Stored.{IsBlock, IsStored, along, block_content, content_of};

    /// A store of `rows` rows and `cols` columns with no entry. It takes no memory.
    pub fn new(alloc: Global, rows: u64, cols: u64) -> Sparse
        ensures rows { result.rows ≡ rows }
        ensures cols { result.cols ≡ cols }
        ensures content { (i j : ℕ) → content_of result i j ≡ None }
    {
        Sparse {
            rows,
            cols,
            lists: FiberLists::new(alloc),
        }
    }

    /// The store of `rows` rows with the entries of a block, whose lists it takes over without a copy.
    pub fn from_block(rows: u64, block: RowBlock) -> Sparse
        requires { block.past ≤ rows }
        ensures rows { result.rows ≡ rows }
        ensures cols { result.cols ≡ block.cols }
        ensures entries { result.entries ≡ block.entries }
        ensures content { (i j : ℕ) → content_of result i j ≡ block_content block i j }
        ensures within { IsWithin result.rows result.cols (content_of result) }
        ensures block { IsBlock block.first block.past block.cols block.entries }
    {
        let RowBlock { cols, lists, .. } = block;
        Sparse { rows, cols, lists }
    }

    /// Puts the entries behind those of others, in their lists, unless it is a column.
    pub(crate) fn append_to(&self, lists: &mut FiberLists) -> Result<(), NoMemory>
        requires many { self.now.cols ≢ 1 }
        requires flat { AreFlat lists.old.ends.items lists.old.inner.items lists.old.words.items }
        requires order { All (λ e. All (Precedes e) self.now.entries) (entries_in lists.old) }
        ensures flat { OnOk result (AreFlat lists.new.ends.items lists.new.inner.items lists.new.words.items) }
        ensures entries { OnOk result (entries_in lists.new ≡ entries_in lists.old ++ self.now.entries) }
    {
        let FiberLists { ends, inner, words } = &self.lists;
        lists.append(ends, inner, words)
    }

    /// The same, where another thread copies one of the lists if they are long.
    pub(crate) fn append_beside<R: Threads>(
        &self,
        rt: &R,
        lists: &mut FiberLists,
    ) -> Result<(), NoMemory>
        requires many { self.now.cols ≢ 1 }
        requires flat { AreFlat lists.old.ends.items lists.old.inner.items lists.old.words.items }
        requires order { All (λ e. All (Precedes e) self.now.entries) (entries_in lists.old) }
        ensures flat { OnOk result (AreFlat lists.new.ends.items lists.new.inner.items lists.new.words.items) }
        ensures entries { OnOk result (entries_in lists.new ≡ entries_in lists.old ++ self.now.entries) }
    {
        let FiberLists { ends, inner, words } = &self.lists;
        lists.append_beside(rt, ends, inner, words)
    }

    /// All rows as a block, which takes the lists over without a copy.
    pub fn into_block(self) -> RowBlock
        ensures first { result.first ≡ 0 }
        ensures past { result.past ≡ self.rows }
        ensures cols { result.cols ≡ self.cols }
        ensures content { (i j : ℕ) → block_content result i j ≡ content_of self i j }
    {
        RowBlock::of_fibers(0, self.rows, self.cols, self.lists)
    }

    /// A store with the same shape and entries, in memory of its own.
    pub fn try_clone(&self) -> Result<Sparse, NoMemory>
        ensures { IfOk result (λ store. store ≡ self.now) }
    {
        let lists = self.lists.try_clone()?;
        Ok(Sparse { lists, ..*self })
    }

    /// The number of rows.
    pub fn rows(&self) -> u64
        ensures rows { result ≡ self.now.rows }

        // What is true of every store, for a caller, who sees no field.
        ensures within { IsWithin self.now.rows self.now.cols (content_of self.now) }
    {
        self.rows
    }

    /// The number of columns.
    pub fn cols(&self) -> u64
        ensures { result ≡ self.now.cols }
    {
        self.cols
    }

    /// The number of entries (`GrB_Matrix_nvals`).
    pub fn nvals(&self) -> u64
        ensures { result ≡ length (entries_of self.now.rows self.now.cols (content_of self.now)) }
    {
        self.lists.inner.len() as u64
    }

    /// All words, row by row.
    pub fn words(&self) -> &[u64]
        ensures { result.now ≡ all_words self.now.rows self.now.cols (content_of self.now) }
    {
        &self.lists.words
    }

    /// The word at row `i` and column `j`, where there is one. Its time grows with the logarithm of
    /// the number of entries.
    pub fn get(&self, i: u64, j: u64) -> Option<u64>
        ensures { result ≡ content_of self.now i j }
    {
        let FiberLists { ends, inner, words } = &self.lists;
        if self.cols == 1 {
            find(ends, inner, words, j, i)
        } else {
            find(ends, inner, words, i, j)
        }
    }

    /// The columns and the words of row `i`, in order, as they lie in the store. Its time grows with
    /// the logarithm of the number of entries.
    pub fn row(&self, i: u64) -> (&[u64], &[u64])
        ensures lengths { length result.1.now ≡ length result.0.now }
        ensures entries { entries_along i result.0.now result.1.now
            ≡ row_entries self.now.cols (content_of self.now) i }
    {
        let (cols, words, _) = self.row_near(i, NO_HINT);
        (cols, words)
    }

    /// The columns and the words of row `i` as `row` gives them, and a hint for a row behind it. Whoever goes
    /// along rising rows hands on the hint that the row before gave, at first 0: a row takes no search where no
    /// row between the two has entries. Any hint serves.
    #[inline(always)]
    pub fn row_near(&self, i: u64, hint: usize) -> (&[u64], &[u64], usize)
        ensures lengths { length result.1.now ≡ length result.0.now }
        ensures entries { entries_along i result.0.now result.1.now
            ≡ row_entries self.now.cols (content_of self.now) i }
    {
        let FiberLists { ends, inner, words } = &self.lists;
        if self.cols == 1 {
            let (cols, words) = row_of_column(ends, inner, words, i);
            (cols, words, hint)
        } else {
            let (cols, words, fiber) = fiber(ends, inner, words, i, hint);
            (
                cols,
                words,
                fiber.saturating_add(usize::from(!cols.is_empty())),
            )
        }
    }

    /// The fibers of the rows in a range: these rows, or the part of the one column that lies in them.
    /// The range may be empty or reach beyond the rows. Its time grows with the logarithm of the number
    /// of entries; that of all rows takes no search.
    #[inline(always)]
    pub fn fibers_in(&self, range: Range<u64>) -> Fibers<'_>
        ensures entries { along self.now.cols result.entries
            ≡ entries_between range.start range.end self.now.cols (content_of self.now) }
        ensures order { InOrder (along self.now.cols result.entries) }
        ensures inside { IsInside self.now.rows self.now.cols (along self.now.cols result.entries) }
        ensures words { (i j : ℕ) → range.start ≤ i → i < range.end
            → word_at (along self.now.cols result.entries) i j ≡ content_of self.now i j }
    {
        if range.start == 0 && self.rows <= range.end {
            let FiberLists { ends, inner, words } = &self.lists;
            return Fibers::of_lists(ends, inner, words);
        }
        let (fibers, _) = self.fibers_near(range, NO_HINT);
        fibers
    }

    /// The fibers of the rows in a range as `fibers_in` gives them, and a hint for a range behind it. Whoever goes
    /// along ranges that rise hands on the hint that the range before gave, at first 0: where no row between the two
    /// has entries, the first row takes no search. The end takes one among as many fibers as the range has rows, and
    /// none where that is one row, or where the range reaches beyond the last. In one column both take a search. Any
    /// hint serves.
    pub fn fibers_near(&self, range: Range<u64>, hint: usize) -> (Fibers<'_>, usize)
        ensures entries { along self.now.cols result.0.entries
            ≡ entries_between range.start range.end self.now.cols (content_of self.now) }
        ensures order { InOrder (along self.now.cols result.0.entries) }
        ensures inside { IsInside self.now.rows self.now.cols (along self.now.cols result.0.entries) }
        ensures words { (i j : ℕ) → range.start ≤ i → i < range.end
            → word_at (along self.now.cols result.0.entries) i j ≡ content_of self.now i j }
    {
        let FiberLists { ends, inner, words } = &self.lists;
        if self.cols == 1 {
            let (inner, words) = column_between(inner, words, range.start, range.end);
            (Fibers::of_column(inner, words), hint)
        } else {
            fibers_between(ends, inner, words, range.start, range.end, hint)
        }
    }

    /// The rows in a range as a block, in memory of their own. The range may be empty or reach beyond the
    /// rows.
    pub fn copy_rows(&self, alloc: Global, range: Range<u64>) -> Result<RowBlock, NoMemory>
        ensures first { IfOk result (λ block. block.first ≡ range.start) }
        ensures past { IfOk result (λ block. block.past ≡ range.end) }
        ensures cols { IfOk result (λ block. block.cols ≡ self.now.cols) }
        ensures words { IfOk result (λ block. (i j : ℕ) → range.start ≤ i → i < range.end
            → block_content block i j ≡ content_of self.now i j) }
    {
        let (first, past) = (range.start, range.end);
        let lists = self.fibers_in(first..past).try_copy(alloc)?;
        Ok(RowBlock::of_fibers(first, past, self.cols, lists))
    }

    /// A row up to which, from the range's first on, there are about so many entries, or that is behind the
    /// first where this alone has more. It serves to cut work into parts. Its time grows with the logarithm
    /// of the number of entries.
    pub fn part_end(&self, range: Range<u64>, entries: usize) -> u64
        requires { range.start < range.end }
        ensures low { range.start < result }
        ensures high { result ≤ range.end }
    {
        let past = if self.cols == 1 {
            row_past(&self.lists.inner, range.start, entries)
        } else {
            outer_past(&self.lists.ends, range.start, entries)
        };
        match past {
            Some(row) => row.max(range.start + 1).min(range.end),
            None => range.end,
        }
    }

    /// The rows in a range. The range may be empty or reach beyond the rows. Its time grows with the
    /// logarithm of the number of entries.
    pub fn rows_in(&self, range: Range<u64>) -> Rows<'_>
        ensures entries { result.entries ≡ entries_between range.start range.end self.now.cols (content_of self.now) }
        ensures order { InOrder result.entries }
        ensures inside { IsInside self.now.rows self.now.cols result.entries }
    {
        if self.cols == 1 {
            let FiberLists { inner, words, .. } = &self.lists;
            let (column, words) = column_between(inner, words, range.start, range.end);
            let fibers = Fibers::none();
            Rows {
                column,
                words,
                fibers,
            }
        } else {
            let fibers = self.fibers_in(range);
            Rows {
                column: &[],
                words: &[],
                fibers,
            }
        }
    }

    /// Sets the word at row `i` and column `j`. A new entry behind all others takes logarithmic time,
    /// and one in between also moves those behind it. Where there is an entry, no memory is taken.
    pub fn set(&mut self, i: u64, j: u64, word: u64) -> Result<(), NoMemory>
        requires row { i < self.old.rows }
        requires col { j < self.old.cols }
        ensures content { OnOk result ((p q : ℕ)
            → content_of self.new p q ≡ with_entry (content_of self.old) i j word p q) }
        ensures rows { self.new.rows ≡ self.old.rows }
        ensures cols { self.new.cols ≡ self.old.cols }
        ensures refused { OnErr result (self.new ≡ self.old) }

        // Only a new entry may be refused.
        ensures absent { OnErr result (content_of self.old i j ≡ None) }

        // What is true of every store.
        ensures stored { IsStored self.new.rows self.new.cols self.new.entries }
    {
        if self.cols == 1 {
            put(&mut self.lists, j, i, word)
        } else {
            put(&mut self.lists, i, j, word)
        }
    }

    /// Puts the entries of a block into a store with one column, each over the one at its position or as a new one.
    /// The entries behind the first new one are moved once, and each entry of the block takes two searches, which are
    /// short where these lie close. Where there is an entry at each position of the block, none is moved and no
    /// memory is taken.
    pub fn put_block(&mut self, block: &RowBlock) -> Result<(), NoMemory>
        requires column { self.old.cols ≡ 1 }
        requires cols { block.now.cols ≡ 1 }
        requires past { block.now.past ≤ self.old.rows }
        ensures content { OnOk result ((i j : ℕ)
            → content_of self.new i j ≡ option_or (block_content block.now i j) (content_of self.old i j)) }
        ensures rows { self.new.rows ≡ self.old.rows }
        ensures cols { self.new.cols ≡ self.old.cols }
        ensures refused { OnErr result (self.new ≡ self.old) }
    {
        if block.is_empty() {
            return Ok(());
        }
        put_column(&mut self.lists, &block.lists)
    }

    /// Removes the entry at row `i` and column `j`, where there is one. It moves those behind it, and
    /// takes no memory.
    pub fn remove(&mut self, i: u64, j: u64)
        ensures content { (p q : ℕ) → content_of self.new p q ≡ without_entry (content_of self.old) i j p q }
        ensures rows { self.new.rows ≡ self.old.rows }
        ensures cols { self.new.cols ≡ self.old.cols }

        // What is true of every store.
        ensures stored { IsStored self.new.rows self.new.cols self.new.entries }
    {
        if self.cols == 1 {
            take_out(&mut self.lists, j, i)
        } else {
            take_out(&mut self.lists, i, j)
        }
    }
}
