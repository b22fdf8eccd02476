//! Lists of indices in rising order.
ghost use Rattle.std.specs.Prelude.{◌≡◌, ◌≤◌, ◌<◌, ℕ, Bool, is_some, true, IfOk};
ghost use Rattle.std.specs.List.Sorted.{IsNonDecreasing};
ghost use Rattle.model.specs.Indices.{place_in};
ghost use Rattle.shapes.specs.Lists.{AreOnce, IsPartIn, has_index};

use crate::spans::span_in;
use model::{IndexList, NoMemory};
use std::alloc::Global;
use std::ops::Range;

/// The indices in a range that are listed, in rising order, each once.
pub(crate) fn list_once(
    alloc: Global,
    indices: &IndexList,
    range: Range<u64>,
) -> Result<Vec<u64>, NoMemory>
    requires { range.start ≤ range.end }
    ensures { IfOk result (λ list. (size : ℕ) → range.end ≤ size
        → AreOnce range.start range.end (λ i. is_some (place_in size indices.now i)) list.items) }
{
    match indices.sorted() {
        Some(sorted) => copy_once(alloc, part_in(sorted, range)),
        None => count_up(alloc, range),
    }
}

/// The numbers of a list that rises, each once.
fn copy_once(alloc: Global, sorted: &[u64]) -> Result<Vec<u64>, NoMemory>
    requires { IsNonDecreasing sorted.now }
    ensures { IfOk result (λ list. (first past : ℕ) (has : ℕ → Bool) → IsPartIn first past has sorted.now
        → AreOnce first past has list.items) }
{
    let mut list = Vec::from_slice(alloc, sorted)?;
    list.dedup();
    Ok(list)
}

/// The part of a list that rises whose numbers lie in a range; by two binary searches.
pub(crate) fn part_in(sorted: &[u64], range: Range<u64>) -> &[u64]
    requires { IsNonDecreasing sorted.now }
    ensures rises { IsNonDecreasing result.now }
    ensures part { IsPartIn range.start range.end (has_index sorted.now) result.now }
{
    let (low, high) = span_in(sorted, range.start, range.end);
    &sorted[low..high]
}

/// All numbers in a range.
fn count_up(alloc: Global, range: Range<u64>) -> Result<Vec<u64>, NoMemory>
    requires { range.start ≤ range.end }
    ensures { IfOk result (λ list. (has : ℕ → Bool) → ((i : ℕ) → i < range.end → has i ≡ true)
        → AreOnce range.start range.end has list.items) }
{
    let (first, past) = (range.start, range.end);
    let mut list = Vec::with_capacity(alloc, (past - first) as usize)?;
    for i in first..past {
        list.push(i)?;
    }
    Ok(list)
}
