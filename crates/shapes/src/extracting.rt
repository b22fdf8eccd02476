//! Entries at lists of rows and columns.
ghost use Rattle.std.specs.Prelude.{◌≡◌, ◌<◌, ◌≤◌, ℕ, length, IfOk, OnOk, true};
ghost use Rattle.std.specs.List.{AllPairs};
ghost use Rattle.std.specs.Option.{option_and_then};
ghost use Rattle.model.specs.Entries.{word_at};
ghost use Rattle.model.specs.Indices.{All, These, are_below, count_of, index_at};
ghost use Rattle.model.specs.Object.{Content};
ghost use Rattle.model.specs.Regions.{extracted};
ghost use Rattle.store.specs.Fibers.{entries_along};
ghost use Rattle.store.specs.Stored.{block_content, content_of};
ghost use Rattle.shapes.specs.Picks.{HasPicks};
ghost use Rattle.shapes.specs.Rows.{HasRowOf, IsRowOf};

use crate::collecting::{collect_all, collect_listed};
use crate::rows::{find_row, put_row, walk_rows};
use model::{IndexList, NoMemory};
use std::alloc::Global;
use std::ops::Range;
use store::{FiberLists, RowBlock, Sparse};

// Up to so many columns are each looked up in a row; of more, those that a row has.
const FEW: usize = 16;

/// The rows in a range of what stands in a store at lists of rows and of columns, in the order of the
/// lists (`GrB_extract`). `:` is never written out. The time follows the list of rows, the entries of these
/// rows, each with a search in the list of columns, and what is found.
pub fn extract_rows(
    alloc: Global,
    a: &Sparse,
    rows: &IndexList,
    cols: &IndexList,
    range: Range<u64>,
) -> Result<RowBlock, NoMemory>
    requires rows { are_below a.now.rows rows.now ≡ true }
    requires cols { are_below a.now.cols cols.now ≡ true }
    requires start { range.start ≤ range.end }
    requires end { range.end ≤ count_of a.now.rows rows.now }
    ensures first { IfOk result (λ block. block.first ≡ range.start) }
    ensures past { IfOk result (λ block. block.past ≡ range.end) }
    ensures cols { IfOk result (λ block. block.cols ≡ count_of a.now.cols cols.now) }
    ensures words { IfOk result (λ block. (i j : ℕ) → range.start ≤ i → i < range.end → block_content block i j
        ≡ extracted a.now.rows a.now.cols rows.now cols.now (content_of a.now) i j) }
{
    match rows.listed() {
        Some(listed) => extract_listed(alloc, a, listed, cols, range),
        None => extract_all(alloc, a, cols, range),
    }
}

/// The rows in a range at a list of columns.
fn extract_all(
    alloc: Global,
    a: &Sparse,
    cols: &IndexList,
    range: Range<u64>,
) -> Result<RowBlock, NoMemory>
    requires cols { are_below a.now.cols cols.now ≡ true }
    requires start { range.start ≤ range.end }
    requires end { range.end ≤ a.now.rows }
    ensures first { IfOk result (λ block. block.first ≡ range.start) }
    ensures past { IfOk result (λ block. block.past ≡ range.end) }
    ensures cols { IfOk result (λ block. block.cols ≡ count_of a.now.cols cols.now) }
    ensures words { IfOk result (λ block. (i j : ℕ) → range.start ≤ i → i < range.end → block_content block i j
        ≡ extracted a.now.rows a.now.cols All cols.now (content_of a.now) i j) }
{
    let Some(listed) = cols.listed() else {
        return extract_whole(alloc, a, range);
    };
    if listed.len() > FEW {
        return collect_all(alloc, a, listed, range);
    }
    let (first, past) = (range.start, range.end);
    let mut lists = FiberLists::new(alloc);
    let mut rest = walk_rows(a, range);
    while let Some((row, others)) = rest.split_first() {
        pick_row(&mut lists, row.index, row.cols, row.words, listed)?;
        rest = others;
    }
    Ok(RowBlock::of_rows(first, past, listed.len() as u64, lists))
}

/// The rows in a range as they are.
fn extract_whole(alloc: Global, a: &Sparse, range: Range<u64>) -> Result<RowBlock, NoMemory>
    requires { range.end ≤ a.now.rows }
    ensures first { IfOk result (λ block. block.first ≡ range.start) }
    ensures past { IfOk result (λ block. block.past ≡ range.end) }
    ensures cols { IfOk result (λ block. block.cols ≡ a.now.cols) }
    ensures words { IfOk result (λ block. (i j : ℕ) → range.start ≤ i → i < range.end → block_content block i j
        ≡ extracted a.now.rows a.now.cols All All (content_of a.now) i j) }
{
    // It is said there that a store has no entry outside its shape.
    let _rows = a.rows();
    a.copy_rows(alloc, range)
}

/// The rows at a range of a list of rows, at a list of columns.
fn extract_listed(
    alloc: Global,
    a: &Sparse,
    rows: &[u64],
    cols: &IndexList,
    range: Range<u64>,
) -> Result<RowBlock, NoMemory>
    requires rows { are_below a.now.rows (These rows.now) ≡ true }
    requires cols { are_below a.now.cols cols.now ≡ true }
    requires start { range.start ≤ range.end }
    requires end { range.end ≤ length rows.now }
    ensures first { IfOk result (λ block. block.first ≡ range.start) }
    ensures past { IfOk result (λ block. block.past ≡ range.end) }
    ensures cols { IfOk result (λ block. block.cols ≡ count_of a.now.cols cols.now) }
    ensures words { IfOk result (λ block. (i j : ℕ) → range.start ≤ i → i < range.end → block_content block i j
        ≡ extracted a.now.rows a.now.cols (These rows.now) cols.now (content_of a.now) i j) }
{
    if let Some(listed) = cols.listed() {
        if listed.len() > FEW {
            return collect_listed(alloc, a, rows, listed, range);
        }
    }
    let (first, past) = (range.start, range.end);
    let mut lists = FiberLists::new(alloc);
    for index in first..past {
        let (row_cols, words) = find_row(a, rows[index as usize]);
        take_row(&mut lists, index, row_cols, words, cols)?;
    }
    Ok(RowBlock::of_rows(first, past, cols.count(a.cols()), lists))
}

/// Puts what a row has at a list of columns as the row at an index behind the rows in the lists.
fn take_row(
    lists: &mut FiberLists,
    index: u64,
    row_cols: &[u64],
    words: &[u64],
    cols: &IndexList,
) -> Result<(), NoMemory>
    requires lengths { length words.now ≡ length row_cols.now }
    requires rising { AllPairs (λ a b. a < b) row_cols.now }
    ensures { OnOk result ((source made : Content) (row size : ℕ) → IsRowOf source row size row_cols.now words.now
        → ((j : ℕ) → made index j ≡ option_and_then (source row) (index_at size cols.now j))
        → HasRowOf made index (count_of size cols.now) lists.old lists.new) }
{
    match cols.listed() {
        Some(listed) => pick_row(lists, index, row_cols, words, listed),
        None => put_row(lists, index, row_cols, words),
    }
}

/// The same, at these columns.
fn pick_row(
    lists: &mut FiberLists,
    index: u64,
    row_cols: &[u64],
    words: &[u64],
    cols: &[u64],
) -> Result<(), NoMemory>
    requires lengths { length words.now ≡ length row_cols.now }
    requires rising { AllPairs (λ a b. a < b) row_cols.now }
    ensures { OnOk result ((source made : Content) (row size : ℕ) → IsRowOf source row size row_cols.now words.now
        → ((j : ℕ) → made index j ≡ option_and_then (source row) (index_at size (These cols.now) j))
        → HasRowOf made index (length cols.now) lists.old lists.new) }
{
    pick_words(lists, row_cols, words, cols)?;
    lists.close(index)
}

/// Puts the place of each listed column that a row has, and its word, behind those in the lists.
fn pick_words(
    lists: &mut FiberLists,
    row_cols: &[u64],
    words: &[u64],
    cols: &[u64],
) -> Result<(), NoMemory>
    requires lengths { length words.now ≡ length row_cols.now }
    requires rising { AllPairs (λ a b. a < b) row_cols.now }
    ensures { OnOk result (HasPicks row_cols.now words.now cols.now (length cols.now) lists.old lists.new) }
{
    for k in 0..cols.len() {
        if let Some(word) = find_word(row_cols, words, cols[k]) {
            lists.inner.push(k as u64)?;
            lists.words.push(word)?;
        }
    }
    Ok(())
}

/// The word of a row at a column, where there is one; by a binary search.
#[inline(always)]
fn find_word(cols: &[u64], words: &[u64], col: u64) -> Option<u64>
    requires lengths { length words.now ≡ length cols.now }
    requires rising { AllPairs (λ a b. a < b) cols.now }
    ensures { (i : ℕ) → word_at (entries_along i cols.now words.now) i col ≡ result }
{
    match cols.binary_search(&col) {
        Ok(at) => Some(words[at]),
        Err(_) => None,
    }
}
