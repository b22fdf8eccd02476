//! Places of a list of indices that lead into a range.
ghost use Rattle.std.specs.Prelude.{◌≡◌, ◌≤◌, ◌-◌, ℕ, IfSome, drop, false, length, nat_lt, true};
ghost use Rattle.std.specs.List.{list_all};
ghost use Rattle.std.specs.List.Sorted.{IsNonDecreasing, IsPartitionPoint};
ghost use Rattle.model.specs.Indices.{All, IsSortedFrom, These, count_of};
ghost use Rattle.shapes.specs.Places.{LeadInto, is_in};

use model::IndexList;
use std::ops::Range;

/// The places of a list whose indices lie in a range, where they stand side by side as in a list that rises;
/// None where they may not. It takes two binary searches, and looks at no more indices than lie in the range.
pub(crate) fn places_into(indices: &IndexList, range: &Range<u64>) -> Option<Range<u64>>
    requires { range.now.start ≤ range.now.end }
    ensures { IfSome result (λ places. (size : ℕ) → (indices.now ≡ All → range.now.end ≤ size)
        → LeadInto indices.now (count_of size indices.now) range.now.start range.now.end
        places.start places.end) }
{
    let Some(listed) = indices.listed() else {
        return Some(range.start..range.end);
    };
    places_of(listed, indices.sorted()?, range.start, range.end)
}

/// The same, of a list and its indices in rising order.
fn places_of(listed: &[u64], sorted: &[u64], first: u64, past: u64) -> Option<Range<u64>>
    requires { IsSortedFrom listed.now sorted.now }
    ensures { IfSome result (λ places. LeadInto (These listed.now) (length listed.now) first past
        places.start places.end) }
{
    let (low, high) = span_in(sorted, first, past);
    // The list has as many indices in the range, so where all these are, no others are.
    if lie_in(&listed[low..high], first, past) {
        Some(low as u64..high as u64)
    } else {
        None
    }
}

/// The places at which the numbers of a range lie in a list that rises: from the first result up to before the
/// second. It takes two binary searches.
pub(crate) fn span_in(sorted: &[u64], first: u64, past: u64) -> (usize, usize)
    requires { IsNonDecreasing sorted.now }
    ensures low { result.0 ≤ result.1 }
    ensures high { result.1 ≤ length sorted.now }
    ensures from { IsPartitionPoint (λ i. nat_lt i first ≡ true) (λ i. nat_lt i first ≡ false) sorted.now result.0 }
    ensures before { IsPartitionPoint (λ i. nat_lt i past ≡ true) (λ i. nat_lt i past ≡ false)
        (drop result.0 sorted.now) (result.1 - result.0) }
{
    let low = sorted.partition_point(|i| *i < first);
    let rest = &sorted[low..];
    let count = rest.partition_point(|i| *i < past);
    (low, low + count)
}

/// Whether all indices lie in a range.
fn lie_in(listed: &[u64], first: u64, past: u64) -> bool
    ensures { result ≡ list_all (is_in first past) listed.now }
{
    listed.iter().all(|i| first <= *i && *i < past)
}
