//! What the entries of a file are collected in.
ghost use Rattle.std.specs.Prelude.{◌≡◌, ◌++◌, ◌∷◌, List, [], IfOk, OnOk, map};
ghost use Rattle.model.specs.declared.entry.Entry.{Entry};
ghost use Rattle.model.specs.Entries.{entry_at};

use model::{Entry, NoMemory};
use std::alloc::Global;
use store::Tuples;

/// A collection of entries in the order of a file. A file is read into the one that is wanted at once, since
/// turning one into another afterwards takes half as long again.
pub trait Collects: Sized + Drop {
    ghost entries_of: { Self → List Entry };

    /// A collection without entries, with room for so many.
    fn with_capacity(alloc: Global, entries: usize) -> Result<Self, NoMemory>
        ensures { IfOk result (λ collection. entries_of collection ≡ []) };

    /// Puts an entry behind the others.
    fn put(&mut self, entry: Entry) -> Result<(), NoMemory>
        ensures { OnOk result (entries_of self.new ≡ entries_of self.old ++ entry ∷ []) };
}

impl Collects for Tuples {
    ghost entries_of = { λ tuples. tuples };

    fn with_capacity(alloc: Global, entries: usize) -> Result<Tuples, NoMemory> {
        Tuples::with_capacity(alloc, entries)
    }

    #[inline(always)]
    fn put(&mut self, entry: Entry) -> Result<(), NoMemory> {
        self.push(entry)
    }
}

/// Each entry as its row, its column and its word.
impl Collects for Vec<(u64, u64, u64)> {
    ghost entries_of = { λ list. map (λ entry. entry_at entry.0 entry.1 entry.2) list.items };

    fn with_capacity(alloc: Global, entries: usize) -> Result<Vec<(u64, u64, u64)>, NoMemory> {
        Ok(Vec::with_capacity(alloc, entries)?)
    }

    #[inline(always)]
    fn put(&mut self, entry: Entry) -> Result<(), NoMemory> {
        self.push((entry.row, entry.col, entry.word))?;
        Ok(())
    }
}
