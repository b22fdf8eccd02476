//! Entries at a long list of columns.
ghost use Rattle.std.specs.Prelude.{◌≡◌, ◌++◌, ◌<◌, ◌≤◌, ℕ, length, map, true, IfOk, OnOk};
ghost use Rattle.std.specs.List.Sorted.{IsPermutation};
ghost use Rattle.model.specs.Entries.{entry_at, row_entries};
ghost use Rattle.model.specs.Indices.{All, These, are_below};
ghost use Rattle.model.specs.Regions.{extracted};
ghost use Rattle.store.specs.Fibers.{entries_along};
ghost use Rattle.store.specs.Stored.{block_content, content_of};
ghost use Rattle.shapes.specs.Collects.{collected};

use crate::places::Places;
use crate::rows::{find_row, walk_rows};
use model::{Entry, NoMemory};
use patch::gather;
use std::alloc::Global;
use std::ops::Range;
use store::{RowBlock, Sparse};

/// The rows in a range of a store at a list of columns. Its time follows the list, the entries of these
/// rows, each with a search in the list, and what is found.
pub(crate) fn collect_all(
    alloc: Global,
    a: &Sparse,
    cols: &[u64],
    range: Range<u64>,
) -> Result<RowBlock, NoMemory>
    requires cols { are_below a.now.cols (These cols.now) ≡ true }
    requires start { range.start ≤ range.end }
    requires end { range.end ≤ a.now.rows }
    ensures first { IfOk result (λ block. block.first ≡ range.start) }
    ensures past { IfOk result (λ block. block.past ≡ range.end) }
    ensures cols { IfOk result (λ block. block.cols ≡ length cols.now) }
    ensures words { IfOk result (λ block. (i j : ℕ) → range.start ≤ i → i < range.end → block_content block i j
        ≡ extracted a.now.rows a.now.cols All (These cols.now) (content_of a.now) i j) }
{
    let looks = a.fibers_in(range.start..range.end).len();
    let places = Places::new(alloc, a.cols(), cols, looks)?;
    let mut entries = Vec::new(alloc);
    let mut rest = walk_rows(a, range.start..range.end);
    while let Some((row, others)) = rest.split_first() {
        collect_row(&mut entries, row.index, row.cols, row.words, &places)?;
        rest = others;
    }
    gather(alloc, entries, None, range, cols.len() as u64)
}

/// The rows at a range of a list of rows, at a list of columns.
pub(crate) fn collect_listed(
    alloc: Global,
    a: &Sparse,
    rows: &[u64],
    cols: &[u64],
    range: Range<u64>,
) -> Result<RowBlock, NoMemory>
    requires rows { are_below a.now.rows (These rows.now) ≡ true }
    requires cols { are_below a.now.cols (These cols.now) ≡ true }
    requires start { range.start ≤ range.end }
    requires end { range.end ≤ length rows.now }
    ensures first { IfOk result (λ block. block.first ≡ range.start) }
    ensures past { IfOk result (λ block. block.past ≡ range.end) }
    ensures cols { IfOk result (λ block. block.cols ≡ length cols.now) }
    ensures words { IfOk result (λ block. (i j : ℕ) → range.start ≤ i → i < range.end → block_content block i j
        ≡ extracted a.now.rows a.now.cols (These rows.now) (These cols.now) (content_of a.now) i j) }
{
    let looks = entries_in(a, &rows[range.start as usize..range.end as usize]);
    let places = Places::new(alloc, a.cols(), cols, looks)?;
    let mut entries = Vec::new(alloc);
    for index in range.start..range.end {
        let (row_cols, words) = find_row(a, rows[index as usize]);
        collect_row(&mut entries, index, row_cols, words, &places)?;
    }
    gather(alloc, entries, None, range, cols.len() as u64)
}

/// How many entries rows have in all. They are counted, since an estimate would make hints for many columns where the
/// rows that are listed have no entry.
fn entries_in(a: &Sparse, rows: &[u64]) -> usize {
    let mut count: usize = 0;
    for row in rows {
        count = count.saturating_add(a.row(*row).0.len());
    }
    count
}

/// Puts what a row has at listed columns, as entries of another row, behind the entries, in the order of their columns:
/// rows are short, and `gather` takes entries that are in order as they are.
fn collect_row(
    entries: &mut Vec<Entry>,
    index: u64,
    cols: &[u64],
    words: &[u64],
    places: &Places,
) -> Result<(), NoMemory>
    requires { length words.now ≡ length cols.now }
    ensures { OnOk result (IsPermutation (entries.old.items
        ++ collected index places.now.store.cols (content_of places.now.store)
        (entries_along 0 cols.now words.now)) entries.new.items) }
{
    let start = entries.len();
    list_row(entries, index, cols, words, places)?;
    sort_row(&mut entries[start..]);
    Ok(())
}

/// Puts the entries of a row in the order of their columns.
#[inline(always)]
fn sort_row(entries: &mut [Entry])
    ensures { IsPermutation entries.old entries.new }
{
    if entries.len() > 1 {
        entries.sort_unstable_by_key(|entry| entry.col);
    }
}

/// What `collect_row` puts there, in the order in which the row has it.
fn list_row(
    entries: &mut Vec<Entry>,
    index: u64,
    cols: &[u64],
    words: &[u64],
    places: &Places,
) -> Result<(), NoMemory>
    requires { length words.now ≡ length cols.now }
    ensures { OnOk result (entries.new.items ≡ entries.old.items
        ++ collected index places.now.store.cols (content_of places.now.store)
        (entries_along 0 cols.now words.now)) }
{
    for k in 0..cols.len() {
        if places.may_have(cols[k]) {
            put_at_places(entries, index, places, cols[k], words[k])?;
        }
    }
    Ok(())
}

/// Puts the word of a column at each of its places in a row behind the entries. It stays a function of its own, so that
/// the loop over columns that have none keeps what it needs in registers.
#[inline(never)]
fn put_at_places(
    entries: &mut Vec<Entry>,
    index: u64,
    places: &Places,
    col: u64,
    word: u64,
) -> Result<(), NoMemory>
    ensures { OnOk result (entries.new.items ≡ entries.old.items
        ++ map (λ s. entry_at index s.col word)
        (row_entries places.now.store.cols (content_of places.now.store) col)) }
{
    put_word(entries, index, places.of(col), word)
}

/// Puts a word at each of some columns of a row behind the entries.
fn put_word(entries: &mut Vec<Entry>, index: u64, cols: &[u64], word: u64) -> Result<(), NoMemory>
    ensures { OnOk result (entries.new.items ≡ entries.old.items
        ++ map (λ col. entry_at index col word) cols.now) }
{
    for col in cols {
        entries.push(Entry {
            row: index,
            col: *col,
            word,
        })?;
    }
    Ok(())
}
