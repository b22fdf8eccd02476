//! Few entries joined into many of one fiber.
ghost use Rattle.std.specs.Prelude.{◌≡◌, ◌<◌, ◌+◌, ℕ, length, IfOk};
ghost use Rattle.std.specs.List.{AllPairs};
ghost use Rattle.store.specs.Fibers.{AreFlat, entries_along, entries_in};
ghost use Rattle.masks.specs.Joins.{IsJoin, IsJoinSoFar, alone_of, both_of};

use crate::join::Joining;
use crate::keep::place_from;
use crate::pair::{Fiber, Pair, append_run};
use model::NoMemory;
use std::alloc::Global;
use store::FiberLists;

/// Whether the right fiber has so few entries that it pays to copy the left one's in runs between them.
pub(crate) fn has_few(pair: Pair<'_>) -> bool {
    pair.right.inner.len() <= pair.left.inner.len() / MUCH_LONGER
}

/// A fiber with an entry for each so many of another has few beside it.
const MUCH_LONGER: usize = 16;

/// The join of two fibers at one outer index, where one side's words stay as they are. What the left one has
/// between the entries of the right one is copied in runs: its time follows the entries of the right one by a
/// logarithm, and the bytes of the left one.
pub(crate) fn join_few(alloc: Global, pair: Pair<'_>, by: Joining) -> Result<FiberLists, NoMemory>
    requires alone { (word : ℕ) → alone_of by word ≡ word }
    requires left_words { length pair.left.words.now ≡ length pair.left.inner.now }
    requires right_words { length pair.right.words.now ≡ length pair.right.inner.now }
    requires left_rises { AllPairs (λ x y. x < y) pair.left.inner.now }
    requires right_rises { AllPairs (λ x y. x < y) pair.right.inner.now }
    ensures flat { IfOk result (λ lists. AreFlat lists.ends.items lists.inner.items lists.words.items) }
    ensures joined { IfOk result (λ lists. IsJoin by
        (entries_along pair.entry.outer pair.entry.left.inner.now pair.entry.left.words.now)
        (entries_along pair.entry.outer pair.entry.right.inner.now pair.entry.right.words.now) (entries_in lists)) }
{
    let Pair { outer, left, right } = pair;
    let mut lists = FiberLists::with_capacity(alloc, left.inner.len() + right.inner.len())?;
    let mut from = 0;
    for k in 0..right.inner.len() {
        from = join_entry(&mut lists, left, from, right, k, by)?;
    }
    append_run(&mut lists, left, from..left.inner.len())?;
    lists.close(outer)?;
    lists.shrink_to_fit();
    Ok(lists)
}

/// Puts the entries of the left fiber from a place up to the index of an entry of the right one behind the inner
/// indices and words, and then that entry, joined with the left one's there. It answers the place of the left one's
/// entries behind it.
fn join_entry(
    lists: &mut FiberLists,
    left: Fiber<'_>,
    from: usize,
    right: Fiber<'_>,
    k: usize,
    by: Joining,
) -> Result<usize, NoMemory>
    requires alone { (word : ℕ) → alone_of by word ≡ word }
    requires left_words { length left.words.now ≡ length left.inner.now }
    requires right_words { length right.words.now ≡ length right.inner.now }
    requires left_rises { AllPairs (λ x y. x < y) left.inner.now }
    requires right_rises { AllPairs (λ x y. x < y) right.inner.now }
    requires inside { k < length right.inner.now }
    requires before { IsJoinSoFar by left.inner.now left.words.now right.inner.now right.words.now from k
        lists.old.inner.items lists.old.words.items }
    ensures ends { lists.new.ends ≡ lists.old.ends }
    ensures joined { IfOk result (λ next. IsJoinSoFar by left.entry.inner.now left.entry.words.now
        right.entry.inner.now right.entry.words.now next (k + 1) lists.new.inner.items lists.new.words.items) }
{
    let index = right.inner[k];
    let at = place_from(left.inner, from, index);
    append_run(lists, left, from..at)?;
    lists.inner.push(index)?;
    if at < left.inner.len() && left.inner[at] == index {
        lists
            .words
            .push(word_of_both(by, left.words[at], right.words[k]))?;
        return Ok(at + 1);
    }
    lists.words.push(right.words[k])?;
    Ok(at)
}

/// What is made of the words of both sides.
#[inline(always)]
fn word_of_both(by: Joining, left: u64, right: u64) -> u64
    ensures { result ≡ both_of by left right }
{
    match by {
        Joining::Right => right,
        Joining::Accumulate(op) | Joining::Unite(op) => op.eval(left, right),
    }
}
