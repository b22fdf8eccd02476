//! A value at lists of rows and columns.
ghost use Rattle.std.specs.Prelude.{◌≡◌, ◌<◌, ◌≤◌, ℕ, replicate, IfOk, true};
ghost use Rattle.std.specs.List.{All, AllPairs};
ghost use Rattle.model.specs.Indices.{are_below};
ghost use Rattle.model.specs.Regions.{filled};
ghost use Rattle.store.specs.Stored.{block_content};
ghost use Rattle.shapes.specs.Lists.{IsFilledColumn, spread};
ghost use Rattle.shapes.specs.Rows.{IsMade};

use crate::listing::list_once;
use crate::rows::put_row;
use model::{IndexList, NoMemory};
use std::alloc::Global;
use std::ops::Range;
use store::{FiberLists, RowBlock};

/// The rows in a range of a shape with a word at each position that lists of rows and of columns name,
/// however often they do (`GrB_assign` of a constant). It takes time for the indices of rows in the range and,
/// where there are some, for the list of columns and these positions.
pub fn assign_const_rows(
    alloc: Global,
    shape: (u64, u64),
    rows: &IndexList,
    cols: &IndexList,
    word: u64,
    range: Range<u64>,
) -> Result<RowBlock, NoMemory>
    requires rows { are_below shape.0 rows.now ≡ true }
    requires cols { are_below shape.1 cols.now ≡ true }
    requires start { range.start ≤ range.end }
    requires end { range.end ≤ shape.0 }
    ensures first { IfOk result (λ block. block.first ≡ range.start) }
    ensures past { IfOk result (λ block. block.past ≡ range.end) }
    ensures cols { IfOk result (λ block. block.cols ≡ shape.1) }
    ensures words { IfOk result (λ block. (i j : ℕ) → range.start ≤ i → i < range.end → block_content block i j
        ≡ filled shape.0 shape.1 rows.now cols.now word i j) }
{
    let (first, past) = (range.start, range.end);
    // Where one list is empty, the other may have more indices than could be written out.
    if rows.count(shape.0) == 0 || cols.count(shape.1) == 0 {
        return Ok(RowBlock::new(alloc, first, past, shape.1));
    }
    let rows = list_once(alloc, rows, first..past)?;
    if rows.is_empty() {
        return Ok(RowBlock::new(alloc, first, past, shape.1));
    }
    let cols = list_once(alloc, cols, 0..shape.1)?;
    if shape.1 == 1 && cols.len() == 1 {
        let lists = fill_column(alloc, &rows, word)?;
        return Ok(RowBlock::of_fibers(first, past, 1, lists));
    }
    let lists = fill_rows(alloc, &rows, &cols, word)?;
    Ok(RowBlock::of_rows(first, past, shape.1, lists))
}

/// The rows with a word at each of some columns.
fn fill_rows(alloc: Global, rows: &[u64], cols: &[u64], word: u64) -> Result<FiberLists, NoMemory>
    requires rows { AllPairs (λ a b. a < b) rows.now }
    requires cols { AllPairs (λ a b. a < b) cols.now }
    ensures { IfOk result (λ lists. (first past size : ℕ) → first ≤ past
        → All (λ x. (first ≤ x) × (x < past)) rows.now → All (λ x. x < size) cols.now
        → IsMade (spread rows.now cols.now word) first past size lists) }
{
    let words = repeat_word(alloc, word, cols.len())?;
    let room = rows.len().saturating_mul(cols.len());
    let mut lists = FiberLists::with_capacity(alloc, room)?;
    for k in 0..rows.len() {
        put_row(&mut lists, rows[k], cols, &words)?;
    }
    Ok(lists)
}

/// The column with a word at each of some rows, as one fiber.
fn fill_column(alloc: Global, rows: &[u64], word: u64) -> Result<FiberLists, NoMemory>
    requires { AllPairs (λ a b. a < b) rows.now }
    ensures { IfOk result (IsFilledColumn rows.now word) }
{
    let words = repeat_word(alloc, word, rows.len())?;
    let mut lists = FiberLists::new(alloc);
    put_row(&mut lists, 0, rows, &words)?;
    Ok(lists)
}

/// A word so many times.
fn repeat_word(alloc: Global, word: u64, count: usize) -> Result<Vec<u64>, NoMemory>
    ensures { IfOk result (λ words. words.items ≡ replicate count word) }
{
    let mut words = Vec::new(alloc);
    words.resize(count, word)?;
    Ok(words)
}
