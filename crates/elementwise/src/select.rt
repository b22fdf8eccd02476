//! The entries that pass a test.
ghost use Rattle.std.specs.Prelude.{◌≡◌, ℕ, ◌<◌, ◌≤◌, IfOk};
ghost use Rattle.elementwise.specs.Tests.{passes_by};
ghost use Rattle.model.specs.ElementWise.{kept_where};
ghost use Rattle.store.specs.Stored.{block_content, content_of};

use crate::passing::{Test, pass_fibers};
use algebra::IndexOp;
use model::NoMemory;
use std::alloc::Global;
use std::ops::Range;
use store::{RowBlock, Sparse};

/// The rows in a range of the entries of a store for which an index operator's answer, with the word `s`
/// as its scalar, is true when it is cast to BOOL (`GrB_select`).
pub fn select_rows(
    alloc: Global,
    a: &Sparse,
    op: IndexOp,
    s: u64,
    range: Range<u64>,
) -> Result<RowBlock, NoMemory>
    requires { range.start ≤ range.end }
    ensures first { IfOk result (λ block. block.first ≡ range.start) }
    ensures past { IfOk result (λ block. block.past ≡ range.end) }
    ensures cols { IfOk result (λ block. block.cols ≡ a.now.cols) }
    ensures words { IfOk result (λ block. (i j : ℕ) → range.start ≤ i → i < range.end
        → block_content block i j ≡ kept_where (passes_by op s) (content_of a.now) i j) }
{
    let (first, past, cols) = (range.start, range.end, a.cols());
    let fibers = a.fibers_in(first..past);
    let test = Test {
        op,
        s,
        is_column: cols == 1,
    };
    let lists = pass_fibers(alloc, &fibers, test)?;
    Ok(RowBlock::of_fibers(first, past, cols, lists))
}
