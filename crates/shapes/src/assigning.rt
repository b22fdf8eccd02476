//! Entries put at lists of rows and columns.
ghost use Rattle.std.specs.Prelude.{◌≡◌, ◌++◌, ◌<◌, ◌≤◌, ℕ, length, map, IfOk, OnOk, true};
ghost use Rattle.std.specs.List.{All, filter_map};
ghost use Rattle.model.specs.Entries.{entries_between};
ghost use Rattle.model.specs.Indices.{All as Every, are_below, are_distinct, count_of};
ghost use Rattle.model.specs.Regions.{placed};
ghost use Rattle.store.specs.Fibers.{entries_along};
ghost use Rattle.store.specs.Stored.{block_content, content_of};
ghost use Rattle.shapes.specs.Places.{Reaches, is_in, moved_entry, nth_index, placed_entry};

use crate::spans::places_into;
use model::{Entry, IndexList, NoMemory};
use patch::gather;
use std::alloc::Global;
use std::ops::Range;
use store::{Row, RowBlock, Sparse};

/// The rows in a range of a store's entries, put into a shape at lists of rows and of columns, of which
/// none is repeated (`GrB_assign`). `:` is never written out. It takes time for the entries that are put; where
/// the list of rows rises, for its indices in the range, else for the whole list; and where one of the lists
/// doesn't rise, for a sort of the entries.
pub fn assign_rows(
    alloc: Global,
    shape: (u64, u64),
    a: &Sparse,
    rows: &IndexList,
    cols: &IndexList,
    range: Range<u64>,
) -> Result<RowBlock, NoMemory>
    requires rows { are_below shape.0 rows.now ≡ true }
    requires cols { are_below shape.1 cols.now ≡ true }
    requires once_rows { are_distinct rows.now ≡ true }
    requires once_cols { are_distinct cols.now ≡ true }
    requires counts_rows { a.now.rows ≡ count_of shape.0 rows.now }
    requires counts_cols { a.now.cols ≡ count_of shape.1 cols.now }
    requires start { range.start ≤ range.end }
    requires end { range.end ≤ shape.0 }
    ensures first { IfOk result (λ block. block.first ≡ range.start) }
    ensures past { IfOk result (λ block. block.past ≡ range.end) }
    ensures cols { IfOk result (λ block. block.cols ≡ shape.1) }
    ensures words { IfOk result (λ block. (i j : ℕ) → range.start ≤ i → i < range.end → block_content block i j
        ≡ placed shape.0 shape.1 rows.now cols.now (content_of a.now) i j) }
{
    // The contract of this call says that a store has no entry outside its shape.
    let _rows = a.rows();
    let entries = place_entries(alloc, a, rows, cols, &range)?;
    gather(alloc, entries, None, range, shape.1)
}

/// The entries of a store at lists of rows and of columns, those in a range of rows.
fn place_entries(
    alloc: Global,
    a: &Sparse,
    rows: &IndexList,
    cols: &IndexList,
    range: &Range<u64>,
) -> Result<Vec<Entry>, NoMemory>
    requires rows { a.now.rows ≡ count_of a.now.rows rows.now }
    requires cols { (k : ℕ) → k < a.now.cols → Reaches cols.now k }
    requires start { range.now.start ≤ range.now.end }
    requires end { rows.now ≡ Every → range.now.end ≤ a.now.rows }
    ensures { IfOk result (λ entries. entries.items
        ≡ filter_map (placed_entry rows.now cols.now range.now.start range.now.end)
        (entries_between 0 a.now.rows a.now.cols (content_of a.now))) }
{
    let Some(places) = places_into(rows, range) else {
        return place_listed(alloc, a, rows, cols, range);
    };
    let mut entries = Vec::new(alloc);
    place_part(&mut entries, a, rows, cols, places)?;
    Ok(entries)
}

/// The entries of the rows of a store that a list of rows leads into a range. It looks through the list, and
/// walks along the rows at places side by side that lead there.
fn place_listed(
    alloc: Global,
    a: &Sparse,
    rows: &IndexList,
    cols: &IndexList,
    range: &Range<u64>,
) -> Result<Vec<Entry>, NoMemory>
    requires rows { (k : ℕ) → k < a.now.rows → Reaches rows.now k }
    requires cols { (k : ℕ) → k < a.now.cols → Reaches cols.now k }
    ensures { IfOk result (λ entries. entries.items
        ≡ filter_map (placed_entry rows.now cols.now range.now.start range.now.end)
        (entries_between 0 a.now.rows a.now.cols (content_of a.now))) }
{
    let mut entries = Vec::new(alloc);
    let mut low = 0;
    for k in 0..a.rows() {
        if !leads_into(rows, k, range) {
            place_part(&mut entries, a, rows, cols, low..k)?;
            low = k + 1;
        }
    }
    place_part(&mut entries, a, rows, cols, low..a.rows())?;
    Ok(entries)
}

/// Whether the index at a place of a list lies in a range.
fn leads_into(indices: &IndexList, at: u64, range: &Range<u64>) -> bool
    requires { Reaches indices.now at }
    ensures { result ≡ is_in range.now.start range.now.end (nth_index indices.now at) }
{
    let index = nth_index(indices, at);
    range.start <= index && index < range.end
}

/// Puts the entries of a part of a store's rows, at lists of rows and of columns, behind the entries.
fn place_part(
    entries: &mut Vec<Entry>,
    a: &Sparse,
    rows: &IndexList,
    cols: &IndexList,
    part: Range<u64>,
) -> Result<(), NoMemory>
    requires rows { (k : ℕ) → k < part.end → Reaches rows.now k }
    requires cols { (k : ℕ) → k < a.now.cols → Reaches cols.now k }
    ensures { OnOk result (entries.new.items ≡ entries.old.items ++ map (moved_entry rows.now cols.now)
        (entries_between part.start part.end a.now.cols (content_of a.now))) }
{
    if part.end <= part.start {
        return Ok(());
    }
    entries.reserve(a.fibers_in(part.start..part.end).len())?;
    let mut rest = a.rows_in(part);
    while let Some((row, others)) = rest.split_first() {
        let index = nth_index(rows, row.index);
        place_row(entries, index, row, cols)?;
        rest = others;
    }
    Ok(())
}

/// The index at a place of a list.
fn nth_index(indices: &IndexList, at: u64) -> u64
    requires { Reaches indices.now at }
    ensures { result ≡ nth_index indices.now at }
{
    match indices.listed() {
        Some(items) => items[at as usize],
        None => at,
    }
}

/// Puts the entries of a row, at another row and at a list of columns, behind the entries.
fn place_row(
    entries: &mut Vec<Entry>,
    index: u64,
    row: Row<'_>,
    cols: &IndexList,
) -> Result<(), NoMemory>
    requires lengths { length row.words.now ≡ length row.cols.now }
    requires cols { All (Reaches cols.now) row.cols.now }
    ensures { OnOk result (entries.new.items ≡ entries.old.items
        ++ entries_along index (map (nth_index cols.now) row.entry.cols.now) row.entry.words.now) }
{
    entries.reserve(row.cols.len())?;
    for k in 0..row.cols.len() {
        entries.push(Entry {
            row: index,
            col: nth_index(cols, row.cols[k]),
            word: row.words[k],
        })?;
    }
    Ok(())
}
