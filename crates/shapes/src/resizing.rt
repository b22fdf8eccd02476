//! Other shapes.
ghost use Rattle.std.specs.Prelude.{◌≡◌, ◌<◌, ℕ, length, IfOk, OnOk};
ghost use Rattle.std.specs.List.{AllPairs};
ghost use Rattle.model.specs.Entries.{word_at};
ghost use Rattle.model.specs.Object.{Content};
ghost use Rattle.model.specs.Regions.{cut_to};
ghost use Rattle.store.specs.Fibers.{entries_along};
ghost use Rattle.store.specs.Stored.{block_content, content_of};
ghost use Rattle.shapes.specs.Rows.{HasRowOf};

use crate::rows::{put_row, walk_rows};
use model::NoMemory;
use std::alloc::Global;
use store::{FiberLists, Row, RowBlock, Sparse};

/// A store of so many rows and columns with the entries that fit them (`GrB_Matrix_resize`,
/// `GrB_Vector_resize`). It takes time for the entries of its rows; where the columns stay, they are copied
/// as they lie.
pub fn resize(alloc: Global, a: &Sparse, rows: u64, cols: u64) -> Result<Sparse, NoMemory>
    ensures rows { IfOk result (λ store. store.rows ≡ rows) }
    ensures cols { IfOk result (λ store. store.cols ≡ cols) }
    ensures content { IfOk result (λ store. (i j : ℕ) → content_of store i j
        ≡ cut_to rows cols (content_of a.now) i j) }
{
    let block = if cols == a.cols() {
        a.copy_rows(alloc, 0..rows)?
    } else {
        cut_rows(alloc, a, rows, cols)?
    };
    Ok(Sparse::from_block(rows, block))
}

/// The first rows of a store, each cut to so many columns.
fn cut_rows(alloc: Global, a: &Sparse, rows: u64, cols: u64) -> Result<RowBlock, NoMemory>
    ensures first { IfOk result (λ block. block.first ≡ 0) }
    ensures past { IfOk result (λ block. block.past ≡ rows) }
    ensures cols { IfOk result (λ block. block.cols ≡ cols) }
    ensures words { IfOk result (λ block. (i j : ℕ) → i < rows → block_content block i j
        ≡ cut_to rows cols (content_of a.now) i j) }
{
    let mut lists = FiberLists::new(alloc);
    let mut rest = walk_rows(a, 0..rows);
    while let Some((row, others)) = rest.split_first() {
        cut_row(&mut lists, row, cols)?;
        rest = others;
    }
    Ok(RowBlock::of_rows(0, rows, cols, lists))
}

/// Puts a row, cut to so many columns, behind the rows in the lists.
fn cut_row(lists: &mut FiberLists, row: Row<'_>, cols: u64) -> Result<(), NoMemory>
    requires lengths { length row.words.now ≡ length row.cols.now }
    requires rising { AllPairs (λ a b. a < b) row.cols.now }
    ensures { OnOk result ((c : Content) (rows : ℕ) → row.entry.index < rows
        → ((j : ℕ) → word_at (entries_along row.entry.index row.entry.cols.now row.entry.words.now) row.entry.index j
        ≡ c row.entry.index j)
        → HasRowOf (cut_to rows cols c) row.entry.index cols lists.old lists.new) }
{
    let count = row.cols.partition_point(|col| *col < cols);
    put_row(lists, row.index, &row.cols[..count], &row.words[..count])
}
