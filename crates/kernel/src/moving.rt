//! Rows of what moves entries: transposes, and the entries and values at regions.
ghost use Rattle.std.specs.Prelude.{◌≡◌, ◌<◌, ◌≤◌, ℕ, IfOk, true};
ghost use Rattle.kernel.specs.Blocks.{HasRows};
ghost use Rattle.model.specs.Indices.{are_below, are_distinct, count_of};
ghost use Rattle.model.specs.Object.{cols_of, rows_of, transposed_content};
ghost use Rattle.model.specs.Regions.{cols_in, cut_to, extracted, filled, placed, rows_in};
ghost use Rattle.store.specs.Stored.{content_of};

use calls::{IndexList, Region, Shape};
use model::NoMemory;
use shapes::{assign_const_rows, assign_rows, extract_rows, resize, transpose, transpose_range};
use std::alloc::Global;
use std::ops::Range;
use store::{Parts, RowBlock, Store};

/// A store in another shape.
pub(crate) fn resized(alloc: Global, old: &Store, rows: u64, cols: u64) -> Result<Store, NoMemory>
    ensures rows { IfOk result (λ store. store.rows ≡ rows) }
    ensures cols { IfOk result (λ store. store.cols ≡ cols) }
    ensures content { IfOk result (λ store. (i j : ℕ) → content_of store i j
        ≡ cut_to rows cols (content_of old.now) i j) }
{
    let old = old.as_sparse(alloc)?;
    Ok(Store::from_sparse(resize(alloc, old.get(), rows, cols)?))
}

/// The transpose of a store. Blocks are read as they lie.
pub(crate) fn transposed(alloc: Global, a: &Store) -> Result<Store, NoMemory>
    ensures rows { IfOk result (λ store. store.rows ≡ a.now.cols) }
    ensures cols { IfOk result (λ store. store.cols ≡ a.now.rows) }
    ensures content { IfOk result (λ store. (i j : ℕ) → content_of store i j
        ≡ transposed_content (content_of a.now) i j) }
{
    if let Some(parts) = a.parts() {
        return Ok(Store::from_sparse(transpose(alloc, &parts)?));
    }
    let a = a.as_sparse(alloc)?;
    Ok(Store::from_sparse(transpose(alloc, &Parts::of_lists(a.get()))?))
}

/// The rows in a range of the transpose of a store.
pub(crate) fn transposed_rows(
    alloc: Global,
    a: &Store,
    range: Range<u64>,
) -> Result<RowBlock, NoMemory>
    requires range { range.start ≤ range.end }
    requires rows { range.end ≤ a.now.cols }
    ensures { IfOk result (HasRows range.start range.end a.now.rows (transposed_content (content_of a.now))) }
{
    if let Some(parts) = a.parts() {
        return rows_of_transpose(alloc, &parts, range);
    }
    let a = a.as_sparse(alloc)?;
    rows_of_transpose(alloc, &Parts::of_lists(a.get()), range)
}

/// The rows in a range of the transpose of lists.
fn rows_of_transpose(alloc: Global, a: &Parts<'_>, range: Range<u64>) -> Result<RowBlock, NoMemory>
    requires range { range.start ≤ range.end }
    requires rows { range.end ≤ a.now.cols }
    ensures { IfOk result (HasRows range.start range.end a.now.rows (transposed_content (content_of a.now))) }
{
    if range.start == 0 && range.end == a.cols() {
        return Ok(transpose(alloc, a)?.into_block());
    }
    transpose_range(alloc, a, range)
}

/// The rows in a range of what stands in a store at a region.
pub(crate) fn extracted_rows(
    alloc: Global,
    a: &Store,
    region: &Region,
    range: Range<u64>,
) -> Result<RowBlock, NoMemory>
    requires low_rows { are_below a.now.rows (rows_in region.now) ≡ true }
    requires low_cols { are_below a.now.cols (cols_in region.now) ≡ true }
    requires range { range.start ≤ range.end }
    requires rows { range.end ≤ count_of a.now.rows (rows_in region.now) }
    ensures { IfOk result (HasRows range.start range.end (count_of a.now.cols (cols_in region.now))
        (extracted a.now.rows a.now.cols (rows_in region.now) (cols_in region.now) (content_of a.now))) }
{
    let a = a.as_sparse(alloc)?;
    match region {
        Region::One(rows) => extract_rows(alloc, a.get(), rows, &IndexList::all(), range),
        Region::Two(rows, cols) => extract_rows(alloc, a.get(), rows, cols, range),
    }
}

/// The rows in a range of a store's entries, put at a region of a shape.
pub(crate) fn placed_rows(
    alloc: Global,
    shape: Shape,
    a: &Store,
    region: &Region,
    range: Range<u64>,
) -> Result<RowBlock, NoMemory>
    requires low_rows { are_below (rows_of shape) (rows_in region.now) ≡ true }
    requires low_cols { are_below (cols_of shape) (cols_in region.now) ≡ true }
    requires once_rows { are_distinct (rows_in region.now) ≡ true }
    requires once_cols { are_distinct (cols_in region.now) ≡ true }
    requires counts_rows { a.now.rows ≡ count_of (rows_of shape) (rows_in region.now) }
    requires counts_cols { a.now.cols ≡ count_of (cols_of shape) (cols_in region.now) }
    requires range { range.start ≤ range.end }
    requires rows { range.end ≤ rows_of shape }
    ensures { IfOk result (HasRows range.start range.end (cols_of shape)
        (placed (rows_of shape) (cols_of shape) (rows_in region.now) (cols_in region.now) (content_of a.now))) }
{
    let shape = (shape.rows(), shape.cols());
    let a = a.as_sparse(alloc)?;
    match region {
        Region::One(rows) => assign_rows(alloc, shape, a.get(), rows, &IndexList::all(), range),
        Region::Two(rows, cols) => assign_rows(alloc, shape, a.get(), rows, cols, range),
    }
}

/// The rows in a range of a shape with a word at each position of a region.
pub(crate) fn filled_rows(
    alloc: Global,
    shape: Shape,
    region: &Region,
    word: u64,
    range: Range<u64>,
) -> Result<RowBlock, NoMemory>
    requires low_rows { are_below (rows_of shape) (rows_in region.now) ≡ true }
    requires low_cols { are_below (cols_of shape) (cols_in region.now) ≡ true }
    requires range { range.start ≤ range.end }
    requires rows { range.end ≤ rows_of shape }
    ensures { IfOk result (HasRows range.start range.end (cols_of shape)
        (filled (rows_of shape) (cols_of shape) (rows_in region.now) (cols_in region.now) word)) }
{
    let shape = (shape.rows(), shape.cols());
    match region {
        Region::One(rows) => assign_const_rows(alloc, shape, rows, &IndexList::all(), word, range),
        Region::Two(rows, cols) => assign_const_rows(alloc, shape, rows, cols, word, range),
    }
}
