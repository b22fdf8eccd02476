//! Rows of stores, and rows that are put behind others into lists.
ghost use Rattle.std.specs.Prelude.{OnOk};
ghost use Rattle.store.specs.Stored.{content_of};
ghost use Rattle.shapes.specs.Rows.{HasRow, IsRowOf, IsWalk};

use model::NoMemory;
use std::ops::Range;
use store::{FiberLists, Rows, Sparse};

/// The rows of a store in a range, to walk along.
pub(crate) fn walk_rows(a: &Sparse, range: Range<u64>) -> Rows<'_>
    ensures { IsWalk (content_of a.now) range.start range.end a.now.cols result.entries }
{
    // It is said there that a store has no entry outside its shape.
    let _rows = a.rows();
    a.rows_in(range)
}

/// The columns and the words of a row of a store.
pub(crate) fn find_row(a: &Sparse, row: u64) -> (&[u64], &[u64])
    ensures { IsRowOf (content_of a.now) row a.now.cols result.0.now result.1.now }
{
    let _rows = a.rows();
    a.row(row)
}

/// Puts a row behind the rows in the lists. One without entries is left out.
#[inline(always)]
pub(crate) fn put_row(
    lists: &mut FiberLists,
    index: u64,
    cols: &[u64],
    words: &[u64],
) -> Result<(), NoMemory>
    ensures { OnOk result (HasRow index cols.now words.now lists.old lists.new) }
{
    lists.inner.extend_from_slice(cols)?;
    lists.words.extend_from_slice(words)?;
    lists.close(index)
}
