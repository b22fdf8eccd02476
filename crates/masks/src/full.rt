//! Entries joined into a fiber that has no gaps.
ghost use Rattle.std.specs.Prelude.{◌≡◌, ◌<◌, ◌-◌, ℕ, Some, false, true, length, slice_index, IfNone, IfOk};
ghost use Rattle.std.specs.List.{AllPairs};
ghost use Rattle.lanes.specs.Lists.{zip_with};
ghost use Rattle.store.specs.Fibers.{AreFlat, entries_along, entries_in};
ghost use Rattle.masks.specs.Joins.{IsAround, IsJoin, IsJoinBy, alone_of, both_beside};
ghost use Rattle.masks.specs.declared.full.Side.TheVariants as sides;

use crate::alike::join_both;
use crate::join::Joining;
use crate::pair::{Fiber, Pair};
use model::NoMemory;
use std::alloc::Global;
use store::FiberLists;

/// On which side a fiber stands.
#[derive(Clone, Copy)]
pub(crate) enum Side {
    Left,
    Right,
}

/// The side whose fiber has no gaps, and has the entries of the other one between its ends.
pub(crate) fn full_side(pair: Pair<'_>) -> Option<Side>
    requires left_rises { AllPairs (λ x y. x < y) pair.left.inner.now }
    requires right_rises { AllPairs (λ x y. x < y) pair.right.inner.now }
    ensures left { result ≡ Some sides.Left → IsAround pair.entry.left.inner.now pair.entry.right.inner.now }
    ensures right { result ≡ Some sides.Right → IsAround pair.entry.right.inner.now pair.entry.left.inner.now }

    // Fibers without entries have no ends.
    ensures none_left { IfNone result (0 < length pair.entry.left.inner.now → 0 < length pair.entry.right.inner.now
        → IsAround pair.entry.left.inner.now pair.entry.right.inner.now → ⊥) }
    ensures none_right { IfNone result (0 < length pair.entry.left.inner.now → 0 < length pair.entry.right.inner.now
        → IsAround pair.entry.right.inner.now pair.entry.left.inner.now → ⊥) }
{
    if is_around(pair.left.inner, pair.right.inner) {
        return Some(Side::Left);
    }
    if is_around(pair.right.inner, pair.left.inner) {
        return Some(Side::Right);
    }
    None
}

/// Whether the indices of a fiber have no gaps, and those of another lie between its ends.
pub(crate) fn is_around(full: &[u64], other: &[u64]) -> bool
    requires full { AllPairs (λ x y. x < y) full.now }
    requires other { AllPairs (λ x y. x < y) other.now }
    ensures yes { result ≡ true → IsAround full.now other.now }

    // Fibers without entries have no ends.
    ensures no { result ≡ false → 0 < length full.now → 0 < length other.now → IsAround full.now other.now → ⊥ }
{
    if full.is_empty() || other.is_empty() {
        return false;
    }
    let (first, last) = (full[0], full[full.len() - 1]);
    if last - first != full.len() as u64 - 1 {
        return false;
    }
    first <= other[0] && other[other.len() - 1] <= last
}

/// The join of two fibers at one outer index, of which that of one side has no gaps and the entries of the other
/// between its ends, where the words of one side alone stay as they are. It takes time for the entries of both,
/// and memory for those of the other beside the result.
pub(crate) fn join_full(
    alloc: Global,
    pair: Pair<'_>,
    side: Side,
    by: Joining,
) -> Result<FiberLists, NoMemory>
    requires alone { (word : ℕ) → alone_of by word ≡ word }
    requires left_words { length pair.left.words.now ≡ length pair.left.inner.now }
    requires right_words { length pair.right.words.now ≡ length pair.right.inner.now }
    requires left_rises { AllPairs (λ x y. x < y) pair.left.inner.now }
    requires right_rises { AllPairs (λ x y. x < y) pair.right.inner.now }
    requires left { side ≡ sides.Left → IsAround pair.left.inner.now pair.right.inner.now }
    requires right { side ≡ sides.Right → IsAround pair.right.inner.now pair.left.inner.now }
    ensures flat { IfOk result (λ lists. AreFlat lists.ends.items lists.inner.items lists.words.items) }
    ensures joined { IfOk result (λ lists. IsJoin by
        (entries_along pair.entry.outer pair.entry.left.inner.now pair.entry.left.words.now)
        (entries_along pair.entry.outer pair.entry.right.inner.now pair.entry.right.words.now) (entries_in lists)) }
{
    match side {
        Side::Left => join_into(alloc, pair.outer, pair.left, pair.right, side, by),
        Side::Right => join_into(alloc, pair.outer, pair.right, pair.left, side, by),
    }
}

/// The entries of a fiber without gaps, on one side, with those of another, between its ends, put in.
fn join_into(
    alloc: Global,
    outer: u64,
    full: Fiber<'_>,
    other: Fiber<'_>,
    side: Side,
    by: Joining,
) -> Result<FiberLists, NoMemory>
    requires full_words { length full.words.now ≡ length full.inner.now }
    requires other_words { length other.words.now ≡ length other.inner.now }
    requires full_rises { AllPairs (λ x y. x < y) full.inner.now }
    requires other_rises { AllPairs (λ x y. x < y) other.inner.now }
    requires around { IsAround full.inner.now other.inner.now }
    ensures flat { IfOk result (λ lists. AreFlat lists.ends.items lists.inner.items lists.words.items) }
    ensures joined { IfOk result (λ lists. IsJoinBy (both_beside side by)
        (entries_along outer full.entry.inner.now full.entry.words.now)
        (entries_along outer other.entry.inner.now other.entry.words.now) (entries_in lists)) }
{
    let mut lists = FiberLists::with_capacity(alloc, full.inner.len())?;
    lists.inner.extend_from_slice(full.inner)?;
    lists.words.extend_from_slice(full.words)?;
    let joined = join_beside(alloc, full, other, side, by)?;
    put_words(&mut lists.words, full, other, &joined);
    lists.close(outer)?;
    Ok(lists)
}

/// What is made of each word of a fiber and of the word that one without gaps has there.
fn join_beside(
    alloc: Global,
    full: Fiber<'_>,
    other: Fiber<'_>,
    side: Side,
    by: Joining,
) -> Result<Vec<u64>, NoMemory>
    requires full_words { length full.words.now ≡ length full.inner.now }
    requires other_words { length other.words.now ≡ length other.inner.now }
    requires around { IsAround full.inner.now other.inner.now }
    ensures length { IfOk result (λ joined. length joined.items ≡ length other.entry.inner.now) }
    ensures words { IfOk result (λ joined. (k : ℕ) → k < length other.entry.inner.now → slice_index joined.items k
        ≡ both_beside side by (slice_index full.entry.words.now
        (slice_index other.entry.inner.now k - slice_index full.entry.inner.now 0))
        (slice_index other.entry.words.now k)) }
{
    let mut beside = Vec::new(alloc);
    beside.resize(other.inner.len(), 0)?;
    for k in 0..other.inner.len() {
        beside[k] = full.words[(other.inner[k] - full.inner[0]) as usize];
    }
    let mut joined = Vec::new(alloc);
    joined.resize(other.inner.len(), 0)?;
    join_sides(by, side, &beside, other.words, &mut joined);
    Ok(joined)
}

/// Makes each word what is made of two words side by side, of which the first is from one side.
fn join_sides(by: Joining, side: Side, firsts: &[u64], seconds: &[u64], words: &mut [u64])
    requires firsts { length firsts.now ≡ length words.old }
    requires seconds { length seconds.now ≡ length words.old }
    ensures length { length words.new ≡ length words.old }
    ensures words { words.new ≡ zip_with (both_beside side by) firsts.now seconds.now }
{
    match side {
        Side::Left => join_both(by, firsts, seconds, words),
        Side::Right => join_both(by, seconds, firsts, words),
    }
}

/// Puts words at the indices of a fiber into those of one without gaps.
fn put_words(words: &mut [u64], full: Fiber<'_>, other: Fiber<'_>, joined: &[u64])
    requires full_words { length full.words.now ≡ length full.inner.now }
    requires other_words { length other.words.now ≡ length other.inner.now }
    requires full_rises { AllPairs (λ x y. x < y) full.inner.now }
    requires other_rises { AllPairs (λ x y. x < y) other.inner.now }
    requires around { IsAround full.inner.now other.inner.now }
    requires start { words.old ≡ full.words.now }
    requires joined { length joined.now ≡ length other.inner.now }
    ensures { (outer : ℕ) (f : ℕ → ℕ → ℕ) → ((k : ℕ) → k < length other.entry.inner.now → slice_index joined.now k
        ≡ f (slice_index full.entry.words.now
        (slice_index other.entry.inner.now k - slice_index full.entry.inner.now 0))
        (slice_index other.entry.words.now k))
        → IsJoinBy f (entries_along outer full.entry.inner.now full.entry.words.now)
        (entries_along outer other.entry.inner.now other.entry.words.now)
        (entries_along outer full.entry.inner.now words.new) }
{
    for k in 0..other.inner.len() {
        words[(other.inner[k] - full.inner[0]) as usize] = joined[k];
    }
}
