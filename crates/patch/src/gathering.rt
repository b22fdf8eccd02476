//! Entries in any order, made into rows.
ghost use Rattle.std.specs.Prelude.{◌≡◌, ℕ, IfOk};
ghost use Rattle.std.specs.Option.{option_map};
ghost use Rattle.algebra.specs.OperatorNames.{op_named};
ghost use Rattle.model.specs.Builds.{gathered};
ghost use Rattle.store.specs.Stored.{AreIn, block_content};

use crate::sorted::block_of_sorted;
use algebra::BinaryOp;
use model::{Entry, NoMemory};
use std::alloc::Global;
use std::ops::Range;
use store::RowBlock;

/// The rows in a range of the map that entries in any order make. The words of one position are joined
/// by an operator, from the first in the list to the last; without one the last stands. It sorts the
/// entries, in linear time and without memory where they come row by row already.
pub fn gather(
    alloc: Global,
    mut entries: Vec<Entry>,
    joins: Option<BinaryOp>,
    range: Range<u64>,
    cols: u64,
) -> Result<RowBlock, NoMemory>
    requires { AreIn range.start range.end cols entries.items }
    ensures first { IfOk result (λ block. block.first ≡ range.start) }
    ensures past { IfOk result (λ block. block.past ≡ range.end) }
    ensures cols { IfOk result (λ block. block.cols ≡ cols) }
    ensures words { IfOk result (λ block. (i j : ℕ) → block_content block i j
        ≡ gathered (option_map op_named joins) entries.items i j) }
{
    entries.sort_by_key(Entry::key)?;
    block_of_sorted(alloc, entries, joins, range, cols)
}
