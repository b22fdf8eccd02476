//! Entries in several blocks of rows.
ghost use Rattle.std.specs.Prelude.{◌<◌, IfSome, IsTrue};
ghost use Rattle.store.specs.Blocks.{IsAlone, IsPartWith, Misses};

use crate::{FiberLists, Parts, RowBlock, Sparse};
use model::NoMemory;
use std::alloc::Global;
use std::marker::Model;
use std::ops::Range;
use std::thread::Threads;

/// What a matrix that is no column holds, as blocks of rows, one behind the other, each with lists of its own. So the
/// pieces of a large piece of work leave it; whoever goes along all words needs no other form.
#[derive(Drop)]
pub struct Blocks {
    rows: u64,
    cols: u64,
    parts: Vec<Sparse>,
    // Of each part the rows that it was made for.
    spans: Vec<RowSpan>,
}

/// The rows from `first` up to before `past`.
#[derive(Clone, Copy, Debug)]
struct RowSpan {
    first: u64,
    past: u64,
}

impl Model for Blocks {
    ghost use Rattle.store.specs.Blocks.{AreInSpans, entries_in_parts};
    ghost use Rattle.store.specs.Stored.{Stored};

    ghost Value = { Stored };

    ghost view = { λ b. record { rows = b.rows; cols = b.cols; entries = entries_in_parts b.parts.items } };

    ghost invariant = { λ b. AreInSpans b.rows b.cols b.spans.items b.parts.items };
}

impl Blocks {
    ghost use Rattle.std.specs.Prelude.{◌≡◌, ◌≢◌, ◌≤◌, ◌++◌, [], ℕ, IfOk, OnErr, OnOk, false, if◌then◌else◌};
    ghost use Rattle.std.specs.Prelude.{is_some, length};
    ghost use Rattle.std.specs.List.{All, flat_map};
    ghost use Rattle.model.specs.Entries.{entries_of};
    ghost use Rattle.model.specs.Object.{IsWithin, with_entry, without_entry};
    ghost use Rattle.model.specs.Reductions.{all_words};
    ghost use Rattle.store.specs.Stored.{AgreesIn, AreIn, content_of};

    /// A store of `rows` rows and `cols` columns, more than one or none, with no entry. It takes no memory.
    pub fn new(alloc: Global, rows: u64, cols: u64) -> Blocks
        requires { cols ≢ 1 }
        ensures rows { result.rows ≡ rows }
        ensures cols { result.cols ≡ cols }
        ensures entries { result.entries ≡ [] }
    {
        Blocks {
            rows,
            cols,
            parts: Vec::new(alloc),
            spans: Vec::new(alloc),
        }
    }

    /// Puts the entries of a block behind those of others, in its own lists.
    pub fn push(&mut self, block: RowBlock) -> Result<(), NoMemory>
        requires cols { block.cols ≡ self.old.cols }
        requires past { block.past ≤ self.old.rows }
        requires front { AreIn 0 block.first self.old.cols self.old.entries }
        ensures rows { self.new.rows ≡ self.old.rows }
        ensures cols { self.new.cols ≡ self.old.cols }
        ensures entries { OnOk result (self.new.entries ≡ self.old.entries ++ block.entries) }
        ensures refused { OnErr result (self.new ≡ self.old) }
    {
        let span = RowSpan {
            first: block.first(),
            past: block.past(),
        };
        let part = Sparse::from_block(self.rows, block);
        if self.nvals().checked_add(part.nvals()).is_none() {
            return Err(NoMemory);
        }
        self.spans.push(span)?;
        if self.parts.push(part).is_err() {
            self.spans.truncate(self.parts.len());
            return Err(NoMemory);
        }
        Ok(())
    }

    /// The number of rows.
    pub fn rows(&self) -> u64
        ensures rows { result ≡ self.now.rows }

        // What is true of every store, for a caller, who sees no field.
        ensures within { IsWithin self.now.rows self.now.cols (content_of self.now) }
    {
        self.rows
    }

    /// The number of columns.
    pub fn cols(&self) -> u64
        ensures { result ≡ self.now.cols }
    {
        self.cols
    }

    /// The number of entries (`GrB_Matrix_nvals`). Its time grows with the number of blocks.
    pub fn nvals(&self) -> u64
        ensures { result ≡ length (entries_of self.now.rows self.now.cols (content_of self.now)) }
    {
        self.as_parts().nvals()
    }

    /// The blocks' lists, for whoever goes along all entries.
    pub fn as_parts(&self) -> Parts<'_>
        ensures { result ≡ self.now }
    {
        Parts {
            rows: self.rows,
            cols: self.cols,
            stores: &self.parts,
        }
    }

    /// The blocks, each as a store of all rows, so that their words follow one another.
    pub fn parts(&self) -> &[Sparse]
        ensures entries { flat_map (λ s. s.entries) result.now ≡ self.now.entries }
        ensures shapes { All (λ s. (s.rows ≡ self.now.rows) × (s.cols ≡ self.now.cols)) result.now }
        ensures words { flat_map (λ s. all_words s.rows s.cols (content_of s)) result.now
            ≡ all_words self.now.rows self.now.cols (content_of self.now) }
    {
        &self.parts
    }

    /// The row behind those that block `at` was made for, where there is such a block.
    pub fn past(&self, at: usize) -> Option<u64> {
        Some(self.spans.get(at)?.past)
    }

    /// The block that has all the entries in a range of rows, as a store of all rows; None where several blocks were
    /// made for some of these. Its time grows with the number of blocks.
    pub(crate) fn part_in(&self, range: &Range<u64>) -> Option<&Sparse>
        ensures { IfSome result (λ part. AgreesIn range.now.start range.now.end part.now self.now) }
    {
        let at = only_one(&self.spans, range)?;
        if at >= self.parts.len() {
            return None;
        }
        Some(&self.parts[at])
    }

    /// The word at row `i` and column `j`, where there is one. Its time grows with the number of blocks and the
    /// logarithm of that of entries.
    pub fn get(&self, i: u64, j: u64) -> Option<u64>
        ensures { result ≡ content_of self.now i j }
    {
        let at = part_with(&self.parts, i, j)?;
        self.parts[at].get(i, j)
    }

    /// Its entries as lists, in memory of their own. It takes time for all of them.
    pub fn joined(&self) -> Result<Sparse, NoMemory>
        ensures { IfOk result (λ sparse. sparse ≡ self.now) }
    {
        let alloc = *self.parts.allocator();
        let mut lists = FiberLists::with_capacity(alloc, self.nvals() as usize)?;
        for k in 0..self.parts.len() {
            self.parts[k].append_to(&mut lists)?;
        }
        Ok(Sparse {
            rows: self.rows,
            cols: self.cols,
            lists,
        })
    }

    /// The entries of the blocks that were made for some of a range of rows, as lists of all rows, in memory of their
    /// own. It takes time for these entries.
    pub(crate) fn joined_rows(&self, range: &Range<u64>) -> Result<Sparse, NoMemory>
        ensures { IfOk result (λ sparse. AgreesIn range.now.start range.now.end sparse self.now) }
    {
        let alloc = *self.parts.allocator();
        let mut lists = FiberLists::with_capacity(alloc, self.count_rows(range))?;
        for k in 0..self.parts.len() {
            if !misses(self.spans[k], range) {
                self.parts[k].append_to(&mut lists)?;
            }
        }
        Ok(Sparse {
            rows: self.rows,
            cols: self.cols,
            lists,
        })
    }

    /// How many entries these blocks have.
    fn count_rows(&self, range: &Range<u64>) -> usize {
        let mut count = 0usize;
        for k in 0..self.parts.len() {
            if !misses(self.spans[k], range) {
                count = count.saturating_add(self.parts[k].nvals() as usize);
            }
        }
        count
    }

    /// All its entries as lists in the memory of empty lists, as far as they have some. A second thread copies one of
    /// the two lists of each block that is long.
    pub fn joined_in<R: Threads>(&self, rt: &R, room: FiberLists) -> Result<Sparse, NoMemory>
        requires ends { room.ends.items ≡ [] }
        requires inner { room.inner.items ≡ [] }
        requires words { room.words.items ≡ [] }
        ensures { IfOk result (λ sparse. sparse ≡ self.now) }
    {
        let mut lists = room;
        let count = self.nvals() as usize;
        lists.inner.try_reserve_exact(count)?;
        lists.words.try_reserve_exact(count)?;
        for k in 0..self.parts.len() {
            self.parts[k].append_beside(rt, &mut lists)?;
        }
        Ok(Sparse {
            rows: self.rows,
            cols: self.cols,
            lists,
        })
    }

    /// Writes over the word at row `i` and column `j`, where there is one, and says whether there is.
    pub(crate) fn overwrite(&mut self, i: u64, j: u64, word: u64) -> bool
        requires row { i < self.old.rows }
        requires col { j < self.old.cols }
        ensures there { result ≡ is_some (content_of self.old i j) }
        ensures content { (p q : ℕ) → content_of self.new p q
            ≡ (if result then with_entry (content_of self.old) i j word p q else content_of self.old p q) }
        ensures rows { self.new.rows ≡ self.old.rows }
        ensures cols { self.new.cols ≡ self.old.cols }
        ensures kept { result ≡ false → self.new ≡ self.old }
    {
        let Some(at) = part_with(&self.parts, i, j) else {
            return false;
        };
        // A word that is written over takes no memory.
        let _ = self.parts[at].set(i, j, word);
        true
    }

    /// Removes the entry at row `i` and column `j`, where there is one, and takes no memory.
    pub(crate) fn remove(&mut self, i: u64, j: u64)
        ensures content { (p q : ℕ) → content_of self.new p q ≡ without_entry (content_of self.old) i j p q }
        ensures rows { self.new.rows ≡ self.old.rows }
        ensures cols { self.new.cols ≡ self.old.cols }
    {
        if let Some(at) = part_with(&self.parts, i, j) {
            self.parts[at].remove(i, j);
        }
    }

    /// The lists of the first block: that of its words and that of its inner indices.
    pub(crate) fn into_memory(self) -> (Vec<u64>, Option<Vec<u64>>) {
        let alloc = *self.parts.allocator();
        match self.parts.into_iter().next() {
            Some(first) => {
                let FiberLists { inner, words, .. } = first.lists;
                (words, Some(inner))
            }
            None => (Vec::new(alloc), None),
        }
    }
}

/// Whether a span has none of a range of rows.
fn misses(span: RowSpan, range: &Range<u64>) -> bool
    ensures { IsTrue result → Misses range.now.start range.now.end span }
{
    span.past <= range.start || range.end <= span.first
}

/// Where a span stands beside which none has some of a range of rows; None where several have.
fn only_one(spans: &[RowSpan], range: &Range<u64>) -> Option<usize>
    ensures { IfSome result (λ at. IsAlone range.now.start range.now.end spans.now at) }
{
    let mut at = None;
    for k in 0..spans.len() {
        if !misses(spans[k], range) {
            if at.is_some() {
                return None;
            }
            at = Some(k);
        }
    }
    Some(at.unwrap_or(0))
}

/// Where a part stands that has an entry at row `i` and column `j`, if one has.
fn part_with(parts: &[Sparse], i: u64, j: u64) -> Option<usize>
    ensures { IsPartWith i j parts.now result }
{
    for at in 0..parts.len() {
        if parts[at].get(i, j).is_some() {
            return Some(at);
        }
    }
    None
}
