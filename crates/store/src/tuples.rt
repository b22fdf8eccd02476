//! Entries in the order in which they come.
ghost use Rattle.std.specs.Prelude.{◌≡◌, ◌<◌, ◌++◌, ◌∷◌, [], false, true, length};
ghost use Rattle.std.specs.Prelude.{IfErr, IfOk, MatchOption, OnErr, OnOk};
ghost use Rattle.std.specs.List.{All};
ghost use Rattle.std.specs.List.Sorted.{IsPermutation};
ghost use Rattle.model.specs.Entries.{InOrder, Precedes};
ghost use Rattle.store.specs.Fibers.{AreFlat, entries_along, entries_in};
ghost use Rattle.store.specs.Tuples.{AreRows, HasEnd, IsFirst, NoneIsEmpty, listed};

use crate::edits::make_room_in;
use crate::lists::count_others;
use crate::{FiberEnd, FiberLists, Fibers};
use model::{Entry, NoMemory};
use std::alloc::Global;
use std::marker::Model;
use std::thread::Threads;

/// Entries in the order in which they come, as those of a file (the tuples of `GrB_Matrix_build`). As long as they
/// come row by row, each behind the one before, they lie as rows, which a store takes over; from the first on that
/// doesn't, they are listed.
#[derive(Drop)]
pub struct Tuples {
    rows: FiberLists,
    // Where the last entry of the rows stands.
    row: u64,
    col: u64,
    // What is listed: lists that were joined, and behind them the one to which entries are added.
    joined: Vec<Vec<Entry>>,
    list: Vec<Entry>,
}

impl Model for Tuples {
    ghost use Rattle.std.specs.Prelude.{List, ◌++◌};
    ghost use Rattle.model.specs.declared.entry.Entry.{Entry};
    ghost use Rattle.store.specs.Fibers.{entries_in};
    ghost use Rattle.store.specs.Tuples.{AreTuples, listed};

    ghost Value = { List Entry };

    ghost view = { λ t. entries_in t.rows ++ (listed t.joined.items ++ t.list.items) };

    ghost invariant = { λ t. AreTuples t.rows t.row t.col t.joined.items t.list.items };
}

impl Tuples {
    /// No entries, with room for so many that come row by row.
    pub fn with_capacity(alloc: Global, entries: usize) -> Result<Tuples, NoMemory>
        ensures { IfOk result (λ tuples. tuples ≡ []) }
    {
        Ok(Tuples {
            rows: FiberLists::with_capacity(alloc, entries)?,
            row: 0,
            col: 0,
            joined: Vec::new(alloc),
            list: Vec::new(alloc),
        })
    }

    /// Puts an entry behind the others. Without memory they stay as they are.
    #[inline(always)]
    pub fn push(&mut self, entry: Entry) -> Result<(), NoMemory>
        ensures ok { OnOk result (self.new ≡ self.old ++ entry ∷ []) }
        ensures err { OnErr result (self.new ≡ self.old) }
    {
        if is_none_listed(&self.joined, &self.list)
            && goes_on(&self.rows, self.row, self.col, &entry)
        {
            push_last(&mut self.rows, entry)?;
            self.row = entry.row;
            self.col = entry.col;
        } else {
            let room = self
                .rows
                .inner
                .capacity()
                .saturating_sub(self.rows.inner.len());
            push_listed(&mut self.list, room, entry)?;
        }
        Ok(())
    }

    /// These entries, and others behind them. Where those go on row by row, as the entries of a part of a file do from
    /// those of the part before, their lists are put behind these as a whole, one of them by another thread if they are
    /// long. What is listed stays where it is.
    pub fn join<R: Threads>(self, rt: &R, others: Tuples) -> Result<Tuples, NoMemory>
        ensures { IfOk result (λ all. all ≡ self ++ others) }
    {
        let Tuples {
            mut rows,
            row,
            col,
            mut joined,
            mut list,
        } = self;
        if is_none_listed(&joined, &list) && leads(&rows, row, col, &others.rows) {
            put_behind(rt, &mut rows, &others.rows)?;
            return Ok(Tuples { rows, ..others });
        }
        let FiberLists { ends, inner, words } = others.rows;
        list_fibers(&mut list, Fibers::of_lists(&ends, &inner, &words))?;
        let mut more = others.joined;
        join_lists(&mut joined, list, &mut more)?;
        Ok(Tuples {
            rows,
            row,
            col,
            joined,
            list: others.list,
        })
    }

    /// The rows as which all entries lie; or the entries, where they didn't come row by row.
    pub fn into_rows(self) -> Result<FiberLists, Tuples>
        ensures flat { IfOk result (λ rows. AreFlat rows.ends.items rows.inner.items rows.words.items) }
        ensures rows { IfOk result (λ rows. entries_in rows ≡ self) }
        ensures order { IfErr result (λ tuples. InOrder tuples → ⊥) }
        ensures others { IfErr result (λ tuples. tuples ≡ self) }
    {
        if is_none_listed(&self.joined, &self.list) {
            Ok(self.rows)
        } else {
            Err(self)
        }
    }

    /// The entries as lists, those that came row by row behind the others.
    pub fn into_lists(self) -> Result<Vec<Vec<Entry>>, NoMemory>
        ensures { IfOk result (λ lists. IsPermutation self (listed lists.items)) }
    {
        let Tuples {
            rows,
            mut joined,
            mut list,
            ..
        } = self;
        let FiberLists { ends, inner, words } = rows;
        list_fibers(&mut list, Fibers::of_lists(&ends, &inner, &words))?;
        joined.push(list)?;
        Ok(joined)
    }
}

/// Whether no entry is listed, in lists that were joined or in the one behind them.
#[inline(always)]
fn is_none_listed(joined: &[Vec<Entry>], list: &[Entry]) -> bool
    requires { NoneIsEmpty joined.now }
    ensures yes { result ≡ true → listed joined.now ++ list.now ≡ [] }
    ensures no { result ≡ false → 0 < length (listed joined.now ++ list.now) }
{
    list.is_empty() && joined.is_empty()
}

/// Puts a list, if it isn't empty, and other lists behind those that were joined.
fn join_lists(
    joined: &mut Vec<Vec<Entry>>,
    list: Vec<Entry>,
    others: &mut Vec<Vec<Entry>>,
) -> Result<(), NoMemory>
    requires joined { NoneIsEmpty joined.old.items }
    requires others { NoneIsEmpty others.old.items }
    ensures some { OnOk result (NoneIsEmpty joined.new.items) }
    ensures all { OnOk result (listed joined.new.items
        ≡ listed joined.old.items ++ list.items ++ listed others.old.items) }
{
    if !list.is_empty() {
        joined.push(list)?;
    }
    joined.append(others)?;
    Ok(())
}

/// Whether an entry stands behind all rows that there are, of which the last entry stands at a row and a column.
#[inline(always)]
fn goes_on(rows: &FiberLists, row: u64, col: u64, entry: &Entry) -> bool
    requires { AreRows rows.now row col }
    ensures yes { result ≡ true → All (λ e. Precedes e entry.now) (entries_in rows.now) }
    ensures no { result ≡ false → All (λ e. Precedes e entry.now) (entries_in rows.now) → ⊥ }
{
    if rows.ends.is_empty() {
        return true;
    }
    if row == entry.row {
        col < entry.col
    } else {
        row < entry.row
    }
}

/// Whether there are more rows, whose first entry stands behind all rows that there are, of which the last entry stands
/// at a row and a column.
fn leads(rows: &FiberLists, row: u64, col: u64, more: &FiberLists) -> bool
    requires rows { AreRows rows.now row col }
    requires more { AreFlat more.now.ends.items more.now.inner.items more.now.words.items }
    ensures some { result ≡ true → 0 < length (entries_in more.now) }
    ensures yes { result ≡ true → All (λ e. All (Precedes e) (entries_in more.now)) (entries_in rows.now) }
    ensures no { result ≡ false → 0 < length (entries_in more.now)
        → All (λ e. All (Precedes e) (entries_in more.now)) (entries_in rows.now) → ⊥ }
{
    match first_entry(more) {
        Some(first) => goes_on(rows, row, col, &first),
        None => false,
    }
}

/// The first entry of rows.
fn first_entry(rows: &FiberLists) -> Option<Entry>
    requires { AreFlat rows.now.ends.items rows.now.inner.items rows.now.words.items }
    ensures { MatchOption result (entries_in rows.now ≡ [])
        (λ first. IsFirst first (entries_in rows.now)) }
{
    let fibers = Fibers::of_lists(&rows.ends, &rows.inner, &rows.words);
    let row = fibers.outer();
    let (cols, words, _) = fibers.split(row);
    if cols.is_empty() {
        return None;
    }
    Some(Entry {
        row,
        col: cols[0],
        word: words[0],
    })
}

/// Puts rows behind others.
fn put_behind<R: Threads>(rt: &R, rows: &mut FiberLists, more: &FiberLists) -> Result<(), NoMemory>
    requires flat { AreFlat rows.old.ends.items rows.old.inner.items rows.old.words.items }
    requires more { AreFlat more.now.ends.items more.now.inner.items more.now.words.items }
    requires order { All (λ e. All (Precedes e) (entries_in more.now)) (entries_in rows.old) }
    ensures flat { OnOk result (AreFlat rows.new.ends.items rows.new.inner.items rows.new.words.items) }
    ensures entries { OnOk result (entries_in rows.new ≡ entries_in rows.old ++ entries_in more.now) }
{
    rows.append_beside(rt, &more.ends, &more.inner, &more.words)
}

/// Puts an entry behind those of a list. The first one finds room for so many: a list that grows by itself is copied,
/// and ends with more room than it needs.
fn push_listed(list: &mut Vec<Entry>, room: usize, entry: Entry) -> Result<(), NoMemory>
    ensures ok { OnOk result (list.new.items ≡ list.old.items ++ entry ∷ []) }
    ensures err { OnErr result (list.new.items ≡ list.old.items) }
{
    if list.is_empty() {
        // Without memory for all of them, there may be some for one.
        let _ = list.reserve_exact(room);
    }
    list.push(entry)?;
    Ok(())
}

/// Puts an entry behind all others: into the last row, or into one of its own. Without memory all stays.
#[inline(always)]
fn push_last(rows: &mut FiberLists, entry: Entry) -> Result<(), NoMemory>
    requires flat { AreFlat rows.old.ends.items rows.old.inner.items rows.old.words.items }
    requires order { All (λ e. Precedes e entry) (entries_in rows.old) }
    ensures flat { AreFlat rows.new.ends.items rows.new.inner.items rows.new.words.items }
    ensures ok { OnOk result (entries_in rows.new ≡ entries_in rows.old ++ entry ∷ []) }
    ensures err { OnErr result (entries_in rows.new ≡ entries_in rows.old) }
    ensures ends { OnErr result (rows.new.ends.items ≡ rows.old.ends.items) }
{
    make_room_in(&mut rows.inner)?;
    make_room_in(&mut rows.words)?;
    let end = rows.inner.len() + 1;
    set_end(&mut rows.ends, entry.row, end)?;
    rows.inner.push_reserved(entry.col);
    rows.words.push_reserved(entry.word);
    Ok(())
}

/// Has the fiber at an outer index, which is the last one or is to come behind it, end behind so many entries.
#[inline(always)]
fn set_end(ends: &mut Vec<FiberEnd>, outer: u64, end: usize) -> Result<(), NoMemory>
    ensures ok { OnOk result (HasEnd outer end ends.old.items ends.new.items) }
    ensures err { OnErr result (ends.new.items ≡ ends.old.items) }
{
    let count = count_others(ends, &[FiberEnd { outer, end }]);
    if count < ends.len() {
        ends[count] = FiberEnd { outer, end };
    } else {
        ends.push(FiberEnd { outer, end })?;
    }
    Ok(())
}

/// Puts the entries of fibers behind others.
fn list_fibers(list: &mut Vec<Entry>, fibers: Fibers<'_>) -> Result<(), NoMemory>
    ensures { OnOk result (list.new.items ≡ list.old.items ++ fibers.entry.entries) }
{
    list.reserve(fibers.len())?;
    let mut rest = fibers;
    while rest.len() > 0 {
        let outer = rest.outer();
        let (inner, words, others) = rest.split(outer);
        list_fiber(list, outer, inner, words)?;
        rest = others;
    }
    Ok(())
}

/// Puts the entries of a fiber behind others.
fn list_fiber(list: &mut Vec<Entry>, row: u64, cols: &[u64], words: &[u64]) -> Result<(), NoMemory>
    requires { length words.now ≡ length cols.now }
    ensures { OnOk result (list.new.items ≡ list.old.items ++ entries_along row cols.now words.now) }
{
    for k in 0..cols.len() {
        list.push(Entry {
            row,
            col: cols[k],
            word: words[k],
        })?;
    }
    Ok(())
}
