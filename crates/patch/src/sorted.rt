//! Blocks of entries that come in order.
ghost use Rattle.std.specs.Prelude.{◌≡◌, ℕ, IfOk};
ghost use Rattle.std.specs.List.{AllPairs};
ghost use Rattle.std.specs.Option.{option_map};
ghost use Rattle.algebra.specs.OperatorNames.{op_named};
ghost use Rattle.model.specs.Builds.{gathered};
ghost use Rattle.model.specs.Entries.{IsNotBehind};
ghost use Rattle.store.specs.Stored.{AreIn, block_content};

use crate::along::lay_along;
use algebra::BinaryOp;
use model::{Entry, NoMemory};
use runs::join_runs;
use std::alloc::Global;
use std::ops::Range;
use store::RowBlock;

/// The rows in a range of the map that entries make, which come row by row. The words of one position are
/// joined by an operator, from the first to the last; without one the last stands. Its time follows the
/// number of entries.
pub(crate) fn block_of_sorted(
    alloc: Global,
    entries: Vec<Entry>,
    joins: Option<BinaryOp>,
    range: Range<u64>,
    cols: u64,
) -> Result<RowBlock, NoMemory>
    requires order { AllPairs IsNotBehind entries.items }
    requires inside { AreIn range.start range.end cols entries.items }
    ensures first { IfOk result (λ block. block.first ≡ range.start) }
    ensures past { IfOk result (λ block. block.past ≡ range.end) }
    ensures cols { IfOk result (λ block. block.cols ≡ cols) }
    ensures words { IfOk result (λ block. (i j : ℕ) → block_content block i j
        ≡ gathered (option_map op_named joins) entries.items i j) }
{
    let entries = lay_along(entries, cols);
    let mut lists = join_runs(alloc, &entries, joins)?;
    lists.shrink_to_fit();
    Ok(RowBlock::of_fibers(range.start, range.end, cols, lists))
}
