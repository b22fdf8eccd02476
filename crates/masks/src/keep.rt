//! What a mask keeps of the entries of fibers, in the same memory.
ghost use Rattle.std.specs.Prelude.{◌≡◌, ℕ, ◌<◌, ◌≤◌, ◌-◌, ◌==◌, if◌then◌else◌, false, Some, None};
ghost use Rattle.std.specs.Prelude.{length, take, drop, slice_index};
ghost use Rattle.std.specs.List.{All, AllPairs};
ghost use Rattle.model.specs.Entries.{word_at};
ghost use Rattle.store.specs.Fibers.{AreFlat, entries_along, entries_from, entries_in};
ghost use Rattle.masks.specs.Keeps.{kept_by};
ghost use Rattle.masks.specs.Masks.{lets_word};

use crate::MaskTest;
use store::{FiberEnd, FiberLists, Fibers};

/// What the mask keeps of the entries of lists. The fibers of the mask's store are `stored`.
pub(crate) fn keep_entries(mut lists: FiberLists, test: MaskTest, stored: Fibers<'_>) -> FiberLists
    requires { AreFlat lists.ends.items lists.inner.items lists.words.items }
    ensures flat { AreFlat result.ends.items result.inner.items result.words.items }
    ensures entries { entries_in result ≡ kept_by test stored.entry.entries (entries_in lists) }
{
    let (fibers, kept) = keep_fibers(
        &mut lists.ends,
        &mut lists.inner,
        &mut lists.words,
        test,
        stored,
    );
    lists.ends.truncate(fibers);
    lists.inner.truncate(kept);
    lists.words.truncate(kept);
    lists
}

/// Brings what the mask keeps to the front of each list, and answers how many fibers and entries there are.
fn keep_fibers(
    ends: &mut [FiberEnd],
    inner: &mut [u64],
    words: &mut [u64],
    test: MaskTest,
    stored: Fibers<'_>,
) -> (usize, usize)
    requires { AreFlat ends.old inner.old words.old }
    ensures ends_length { length ends.new ≡ length ends.old }
    ensures inner_length { length inner.new ≡ length inner.old }
    ensures words_length { length words.new ≡ length words.old }
    ensures flat { AreFlat (take result.0 ends.new) (take result.1 inner.new) (take result.1 words.new) }
    ensures entries { entries_from 0 (take result.0 ends.new) (take result.1 inner.new) (take result.1 words.new)
        ≡ kept_by test stored.entry.entries (entries_from 0 ends.old inner.old words.old) }
{
    let mut rest = stored;
    let mut fibers = 0;
    let mut kept = 0;
    let mut start = 0;
    for at in 0..ends.len() {
        let FiberEnd { outer, end } = ends[at];
        let (stored_inner, stored_words, behind) = seek(rest, outer);
        rest = behind;
        let count = keep_fiber(
            &mut inner[kept..end],
            &mut words[kept..end],
            start - kept,
            test,
            stored_inner,
            stored_words,
        );
        kept += count;
        ends[fibers] = FiberEnd { outer, end: kept };
        fibers += usize::from(count > 0);
        start = end;
    }
    (fibers, kept)
}

/// The fiber at an outer index, which has no entries where there is none, and the fibers behind it.
fn seek<'a>(fibers: Fibers<'a>, outer: u64) -> (&'a [u64], &'a [u64], Fibers<'a>)
    ensures lengths { length result.1.now ≡ length result.0.now }
    ensures rising { AllPairs (λ a b. a < b) result.0.now }
    ensures here { (j : ℕ) → word_at (entries_along outer result.0.now result.1.now) outer j
        ≡ word_at fibers.entry.entries outer j }
    ensures behind { (i j : ℕ) → outer < i → word_at result.2.entries i j ≡ word_at fibers.entry.entries i j }
{
    let mut rest = fibers;
    let mut first = rest.outer();
    while first < outer {
        let (_, _, behind) = rest.split(first);
        rest = behind;
        first = rest.outer();
    }
    rest.split(outer)
}

/// How many times as long as the entries a mask's fiber is, where to look each of them up pays.
const MUCH_LONGER: usize = 16;

/// Brings what a mask keeps of a fiber's entries, which lie from the place `from` on, to the front of the
/// lists, and answers how many there are. The fiber of the mask's store has `stored_inner` and
/// `stored_words`. It goes along both fibers; where that of the mask is much longer it looks each entry up.
#[inline(never)]
pub fn keep_fiber(
    inner: &mut [u64],
    words: &mut [u64],
    from: usize,
    test: MaskTest,
    stored_inner: &[u64],
    stored_words: &[u64],
) -> usize
    requires words { length words.old ≡ length inner.old }
    requires from { from ≤ length inner.old }
    requires rising { AllPairs (λ a b. a < b) (drop from inner.old) }
    requires stored_words { length stored_words.now ≡ length stored_inner.now }
    requires stored_rising { AllPairs (λ a b. a < b) stored_inner.now }
    ensures bound { result ≤ length inner.old - from }
    ensures inner_length { length inner.new ≡ length inner.old }
    ensures words_length { length words.new ≡ length words.old }
    ensures kept { (outer : ℕ) → entries_along outer (take result inner.new) (take result words.new)
        ≡ kept_by test (entries_along outer stored_inner.now stored_words.now)
        (entries_along outer (drop from inner.old) (drop from words.old)) }
{
    let looks_up = stored_inner.len() / MUCH_LONGER > inner.len() - from;
    let mut kept = 0;
    let mut at = from;
    let mut next = 0;
    while at < inner.len() && next < stored_inner.len() {
        let (index, other) = (inner[at], stored_inner[next]);
        let is_kept = keeps(test, index, other, stored_words[next]);
        inner[kept] = index;
        words[kept] = words[at];
        kept += usize::from(is_kept);
        at += usize::from(index <= other);
        next += usize::from(other <= index);
        next = pass_over(stored_inner, next, inner, at, looks_up);
    }
    while at < inner.len() {
        inner[kept] = inner[at];
        words[kept] = words[at];
        kept += usize::from(test.complement);
        at += 1;
    }
    kept
}

/// From a place of a mask's fiber on the first index that isn't below the one at hand, where it is looked up;
/// else the place itself. The lookup is a binary search.
#[inline(always)]
fn pass_over(stored: &[u64], next: usize, inner: &[u64], at: usize, looks_up: bool) -> usize
    requires rising { AllPairs (λ a b. a < b) stored.now }
    requires bound { next ≤ length stored.now }
    ensures bound { result ≤ length stored.now }
    ensures behind { next ≤ result }
    ensures passed { at < length inner.now → All (λ y. y < slice_index inner.now at) (take next stored.now)
        → All (λ y. y < slice_index inner.now at) (take result stored.now) }
{
    if !looks_up || at >= inner.len() {
        return next;
    }
    place_from(stored, next, inner[at])
}

/// The first place from another on at which an inner index isn't below a given one; by a binary search, which is short
/// where that index isn't far behind the one at the place.
#[inline(always)]
pub fn place_from(inner: &[u64], from: usize, index: u64) -> usize
    requires rising { AllPairs (λ a b. a < b) inner.now }
    requires bound { from ≤ length inner.now }
    ensures bound { result ≤ length inner.now }
    ensures behind { from ≤ result }
    ensures passed { All (λ y. y < index) (take from inner.now) → All (λ y. y < index) (take result inner.now) }
    ensures left { All (λ y. index ≤ y) (drop result inner.now) }
{
    from + place_in(&inner[from..], index)
}

/// The first place at which an inner index isn't below a given one.
#[inline(always)]
fn place_in(inner: &[u64], index: u64) -> usize
    requires rising { AllPairs (λ a b. a < b) inner.now }
    ensures bound { result ≤ length inner.now }
    ensures before { All (λ y. y < index) (take result inner.now) }
    ensures left { All (λ y. index ≤ y) (drop result inner.now) }
{
    inner[..most_below(inner, index)].partition_point(|x| *x < index)
}

/// How many inner indices can be below a given one at most: each is greater than the one before.
#[inline(always)]
fn most_below(inner: &[u64], index: u64) -> usize
    requires rising { AllPairs (λ a b. a < b) inner.now }
    ensures bound { result ≤ length inner.now }
    ensures left { All (λ y. index ≤ y) (drop result inner.now) }
{
    if inner.is_empty() {
        return 0;
    }
    let far = index.saturating_sub(inner[0]) as usize;
    far.min(inner.len())
}

/// Whether the mask keeps an index, where `other` is the first in a fiber of its store that isn't below it,
/// and has this word. An index behind `other` isn't kept yet.
#[inline(always)]
fn keeps(test: MaskTest, index: u64, other: u64, word: u64) -> bool
    ensures kept { index ≤ other → result ≡ lets_word test (if index == other then Some word else None) }
    ensures passed { other < index → result ≡ false }
{
    // Without a branch: whether two indices meet can't be foreseen.
    let is_stored = (index == other) & test.counts(word);
    (index <= other) & (is_stored != test.complement)
}
