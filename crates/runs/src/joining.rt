//! The fibers of entries that come in order.
ghost use Rattle.std.specs.Prelude.{◌≡◌, IfOk};
ghost use Rattle.std.specs.List.{AllPairs};
ghost use Rattle.std.specs.Option.{option_map};
ghost use Rattle.algebra.specs.OperatorNames.{op_named};
ghost use Rattle.model.specs.Builds.{joined};
ghost use Rattle.model.specs.Entries.{IsNotBehind};
ghost use Rattle.runs.specs.Runs.{runs_of};
ghost use Rattle.store.specs.Fibers.{AreFlat, end_at, entries_in};

use algebra::BinaryOp;
use model::{Entry, NoMemory};
use std::alloc::Global;
use store::{FiberEnd, FiberLists};

/// The fibers of entries that come row by row: those of one row are a fiber. The words of one position are joined by an
/// operator, from the first to the last; without one the last stands. Its time follows the number of entries.
pub fn join_runs(
    alloc: Global,
    entries: &[Entry],
    joins: Option<BinaryOp>,
) -> Result<FiberLists, NoMemory>
    requires { AllPairs IsNotBehind entries.now }
    ensures flat { IfOk result (λ lists. AreFlat lists.ends.items lists.inner.items lists.words.items) }
    ensures entries { IfOk result (λ lists. entries_in lists ≡ runs_of (option_map op_named joins) entries.now) }
{
    let Some((first, rest)) = entries.split_first() else {
        return Ok(FiberLists::new(alloc));
    };
    // Room for the most that there can be, each entry at a position of its own.
    let mut ends = Vec::new(alloc);
    let mut inner = Vec::with_capacity(alloc, entries.len())?;
    let mut words = Vec::with_capacity(alloc, entries.len())?;
    let mut last = *first;
    for entry in rest {
        if last.shares_position(entry) {
            last.word = join(joins, last.word, entry.word);
        } else {
            inner.push_reserved(last.col);
            words.push_reserved(last.word);
            if entry.row != last.row {
                ends.push(end_of(&last, inner.len()))?;
            }
            last = *entry;
        }
    }
    inner.push_reserved(last.col);
    words.push_reserved(last.word);
    ends.push(end_of(&last, inner.len()))?;
    Ok(FiberLists { ends, inner, words })
}

/// The end of the fiber of an entry, behind so many entries.
#[inline(always)]
fn end_of(entry: &Entry, end: usize) -> FiberEnd
    ensures { result ≡ end_at entry.now.row end }
{
    FiberEnd {
        outer: entry.row,
        end,
    }
}

/// What two words of one position make.
#[inline(always)]
fn join(joins: Option<BinaryOp>, before: u64, word: u64) -> u64
    ensures { result ≡ joined (option_map op_named joins) before word }
{
    match joins {
        Some(op) => op.eval(before, word),
        None => word,
    }
}
