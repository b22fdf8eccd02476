//! Unions of stores.
ghost use Rattle.std.specs.Prelude.{◌≡◌, ℕ, ◌<◌, ◌≤◌, IfOk};
ghost use Rattle.algebra.specs.Operators.{eval_of};
ghost use Rattle.elementwise.specs.Alone.{alone_by};
ghost use Rattle.model.specs.ElementWise.{of_either};
ghost use Rattle.store.specs.Stored.{block_content, content_of};

use algebra::BinaryOp;
use masks::{Joining, join_rows};
use model::NoMemory;
use std::alloc::Global;
use std::ops::Range;
use store::{RowBlock, Sparse};

/// The rows in a range of the union of two stores of as many columns (`GrB_eWiseAdd`): at each position
/// that both have, what the operator gives; at one that one has, its word, cast from the operator's
/// domain to that of its answer. It takes time and memory for the entries of both in these rows.
pub fn union_rows(
    alloc: Global,
    a: &Sparse,
    b: &Sparse,
    op: BinaryOp,
    range: Range<u64>,
) -> Result<RowBlock, NoMemory>
    requires cols { a.now.cols ≡ b.now.cols }
    requires range { range.start ≤ range.end }
    ensures first { IfOk result (λ block. block.first ≡ range.start) }
    ensures past { IfOk result (λ block. block.past ≡ range.end) }
    ensures cols { IfOk result (λ block. block.cols ≡ a.now.cols) }
    ensures words { IfOk result (λ block. (i j : ℕ) → range.start ≤ i → i < range.end → block_content block i j
        ≡ of_either (alone_by op) (alone_by op) (eval_of op.kind op.domain)
        (content_of a.now i j) (content_of b.now i j)) }
{
    join_rows(alloc, a, b, Joining::Unite(op), range)
}
