//! Functions of each entry.
ghost use Rattle.std.specs.Prelude.{◌≡◌, ℕ, ◌<◌, ◌≤◌, IfOk};
ghost use Rattle.algebra.specs.Functions.{function_named, function_of};
ghost use Rattle.elementwise.specs.Mapped.{as_they_lie, mapped};
ghost use Rattle.model.specs.ElementWise.{applied};
ghost use Rattle.store.specs.Fibers.{AreFlat, entries_in};
ghost use Rattle.store.specs.Stored.{block_content, content_of};

use crate::indexed::index_fibers;
use crate::mapping::map_fibers;
use algebra::Function;
use lanes::WordFunction;
use model::NoMemory;
use std::alloc::Global;
use std::ops::Range;
use store::{FiberLists, Fibers, RowBlock, Sparse};

/// The rows in a range of what a function gives for each entry of a store (`GrB_apply`).
pub fn apply_rows(
    alloc: Global,
    a: &Sparse,
    function: Function,
    range: Range<u64>,
) -> Result<RowBlock, NoMemory>
    requires { range.start ≤ range.end }
    ensures first { IfOk result (λ block. block.first ≡ range.start) }
    ensures past { IfOk result (λ block. block.past ≡ range.end) }
    ensures cols { IfOk result (λ block. block.cols ≡ a.now.cols) }
    ensures words { IfOk result (λ block. (i j : ℕ) → range.start ≤ i → i < range.end
        → block_content block i j ≡ applied (function_named function) (content_of a.now) i j) }
{
    let (first, past, cols) = (range.start, range.end, a.cols());
    let fibers = a.fibers_in(first..past);
    let lists = apply_fibers(alloc, &fibers, function, cols == 1)?;
    Ok(RowBlock::of_fibers(first, past, cols, lists))
}

/// What a function gives for each entry of fibers. Of a column the row is the inner index.
fn apply_fibers(
    alloc: Global,
    fibers: &Fibers<'_>,
    function: Function,
    is_column: bool,
) -> Result<FiberLists, NoMemory>
    ensures flat { IfOk result (λ lists. AreFlat lists.ends.items lists.inner.items lists.words.items) }
    ensures entries { IfOk result (λ lists. entries_in lists
        ≡ mapped (as_they_lie is_column (function_of (function_named function))) fibers.now.entries) }
{
    match function {
        Function::Unary(op) => map_fibers(alloc, fibers, WordFunction::Unary(op)),
        Function::First { op, value } => {
            let value = op.domain.wrapped(value);
            map_fibers(alloc, fibers, WordFunction::First { op, value })
        }
        Function::Second { op, value } => {
            let value = op.domain.wrapped(value);
            map_fibers(alloc, fibers, WordFunction::Second { op, value })
        }
        Function::Index { op, scalar } => {
            let s = op.scalar().wrapped(scalar);
            index_fibers(alloc, fibers, op, s, is_column)
        }
    }
}
