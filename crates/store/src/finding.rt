//! Entries and fibers found in lists.
ghost use Rattle.std.specs.Prelude.{◌≡◌, ℕ, ◌<◌, ◌≤◌, ◌+◌, ◌∷◌, length, take, drop, None, Some};
ghost use Rattle.std.specs.Prelude.{slice_index, slice_index_or, slice_range, IfOk, IfErr, IfSome, MatchOption};
ghost use Rattle.std.specs.List.{All};
ghost use Rattle.std.specs.List.Sorted.{IsSearchInRange};
ghost use Rattle.std.specs.Option.{option_map, option_to_list};
ghost use Rattle.model.specs.Entries.{entry_at, word_at};
ghost use Rattle.store.specs.Fibers.{AreApart, AreAt, AreFlat, IsAbsent, IsFound, Rises, RisesIn};
ghost use Rattle.store.specs.Fibers.{end_at, entries_along, entries_from, last_end, outers};
ghost use Rattle.store.specs.Stored.{entries_in_row};

use crate::FiberEnd;

/// Where the fiber at an outer index stands among the fibers, or would stand, and its places.
#[derive(Clone, Copy)]
pub(crate) struct Spot {
    pub(crate) fiber: usize,
    pub(crate) start: usize,
    pub(crate) end: usize,
}

/// A hint for whoever has none: it stands for no fiber.
pub(crate) const NO_HINT: usize = 0;

/// The places of the fiber at `outer`; by a binary search, where the hint isn't the number of fibers before it.
#[inline(always)]
pub(crate) fn fiber_near(ends: &[FiberEnd], outer: u64, hint: usize) -> Spot
    requires rises { Rises 0 ends.now }
    requires apart { AreApart ends.now }
    ensures fiber { result.fiber ≤ length ends.now }
    ensures before { All (λ r. r.outer < outer) (take result.fiber ends.now) }
    ensures behind { All (λ r. outer ≤ r.outer) (drop result.fiber ends.now) }
    ensures start { result.start ≡ last_end 0 (take result.fiber ends.now) }
    ensures at { AreAt outer result.start result.end (outers 0 ends.now) }
    ensures there { result.start < result.end → drop result.fiber ends.now
        ≡ end_at outer result.end ∷ drop (result.fiber + 1) ends.now }
    ensures absent { result.end ≤ result.start → All (λ r. outer < r.outer) (drop result.fiber ends.now) }
{
    // Most fibers that are looked for are there.
    if hint < ends.len() && ends[hint].outer == outer {
        return spot_of(ends, outer, hint);
    }
    let fiber = first_near(ends, outer, hint);
    spot_of(ends, outer, fiber)
}

/// The places of the fiber at `outer`, before which there are so many.
#[inline(always)]
fn spot_of(ends: &[FiberEnd], outer: u64, fiber: usize) -> Spot
    requires rises { Rises 0 ends.now }
    requires apart { AreApart ends.now }
    requires bound { fiber ≤ length ends.now }
    requires before { All (λ r. r.outer < outer) (take fiber ends.now) }
    requires behind { All (λ r. outer ≤ r.outer) (drop fiber ends.now) }
    ensures fiber { result.fiber ≡ fiber }
    ensures start { result.start ≡ last_end 0 (take result.fiber ends.now) }
    ensures at { AreAt outer result.start result.end (outers 0 ends.now) }
    ensures there { result.start < result.end → drop result.fiber ends.now
        ≡ end_at outer result.end ∷ drop (result.fiber + 1) ends.now }
    ensures absent { result.end ≤ result.start → All (λ r. outer < r.outer) (drop result.fiber ends.now) }
{
    let start = end_of(ends, fiber);
    if fiber < ends.len() && ends[fiber].outer == outer {
        let end = ends[fiber].end;
        return Spot { fiber, start, end };
    }
    Spot {
        fiber,
        start,
        end: start,
    }
}

/// How many fibers are before an outer index. Where that is the hint it takes no search, nor where each index below the
/// last fiber's has one, or each between the fiber before the hint and this one.
#[inline(always)]
pub(crate) fn first_near(ends: &[FiberEnd], outer: u64, hint: usize) -> usize
    requires { AreApart ends.now }
    ensures bound { result ≤ length ends.now }
    ensures before { All (λ r. r.outer < outer) (take result ends.now) }
    ensures behind { All (λ r. outer ≤ r.outer) (drop result ends.now) }
{
    if let Some(count) = count_at(ends, outer, hint) {
        return count;
    }
    if let Some(count) = count_without_gaps(ends, outer) {
        return count;
    }
    match count_at(ends, outer, ahead_of(ends, outer, hint)) {
        Some(count) => count,
        None => first_from(ends, outer),
    }
}

/// How many fibers are before an outer index, where each index up to the last fiber's has one: as many as indices are.
#[inline(always)]
fn count_without_gaps(ends: &[FiberEnd], outer: u64) -> Option<usize>
    requires { AreApart ends.now }
    ensures bound { IfSome result (λ count. count ≤ length ends.now) }
    ensures before { IfSome result (λ count. All (λ r. r.outer < outer) (take count ends.now)) }
    ensures behind { IfSome result (λ count. All (λ r. outer ≤ r.outer) (drop count ends.now)) }
{
    let count = ends.len();
    if count == 0 || ends[count - 1].outer != count as u64 - 1 {
        return None;
    }
    Some(outer.min(count as u64) as usize)
}

/// The place where it is seen there that so many fibers are before an outer index.
#[inline(always)]
fn count_at(ends: &[FiberEnd], outer: u64, place: usize) -> Option<usize>
    requires { AreApart ends.now }
    ensures bound { IfSome result (λ count. count ≤ length ends.now) }
    ensures before { IfSome result (λ count. All (λ r. r.outer < outer) (take count ends.now)) }
    ensures behind { IfSome result (λ count. All (λ r. outer ≤ r.outer) (drop count ends.now)) }
{
    if place > 0
        && place < ends.len()
        && ends[place - 1].outer < outer
        && outer <= ends[place].outer
    {
        return Some(place);
    }
    None
}

/// How many fibers are before an outer index, if each index from the fiber before the hint on has one.
#[inline(always)]
fn ahead_of(ends: &[FiberEnd], outer: u64, hint: usize) -> usize {
    if hint == 0 || hint >= ends.len() {
        return 0;
    }
    let passed = outer.saturating_sub(ends[hint - 1].outer).saturating_sub(1);
    hint.saturating_add(passed as usize)
}

/// How many fibers are before an outer index; by a binary search among as many fibers as outer indices
/// below the last one have none.
pub(crate) fn first_from(ends: &[FiberEnd], outer: u64) -> usize
    requires { AreApart ends.now }
    ensures bound { result ≤ length ends.now }
    ensures before { All (λ r. r.outer < outer) (take result ends.now) }
    ensures behind { All (λ r. outer ≤ r.outer) (drop result ends.now) }
{
    let (low, high) = window(ends, outer);
    low + count_before(&ends[low..high], outer)
}

/// Fibers among which the first one from an outer index is, or would be. As outer indices rise, none is
/// below its place, and none is above it by more than the number of indices that are passed over.
#[inline(always)]
fn window(ends: &[FiberEnd], outer: u64) -> (usize, usize)
    requires { AreApart ends.now }
    ensures low { result.0 ≤ result.1 }
    ensures high { result.1 ≤ length ends.now }
    ensures before { (k : ℕ) (d : FiberEnd) → k < result.0 → (slice_index_or ends.now k d).outer < outer }
    ensures behind { (k : ℕ) (d : FiberEnd) → result.1 ≤ k → k < length ends.now
        → outer ≤ (slice_index_or ends.now k d).outer }
{
    if ends.is_empty() {
        return (0, 0);
    }
    let last = ends.len() - 1;
    let passed_over = ends[last].outer - last as u64;
    let high = outer.min(ends.len() as u64);
    let low = high.min(outer.saturating_sub(passed_over));
    (low as usize, high as usize)
}

/// How many fibers are before the outer index `past`, where as many as `low` are before `first`, or `low` where `past`
/// isn't behind `first`. By a binary search among no more fibers than indices are between the two, where not all of
/// these fibers are before `past`.
#[inline(always)]
pub(crate) fn past_from(ends: &[FiberEnd], low: usize, first: u64, past: u64) -> usize
    requires apart { AreApart ends.now }
    requires bound { low ≤ length ends.now }
    requires behind { All (λ r. first ≤ r.outer) (drop low ends.now) }
    ensures low { low ≤ result }
    ensures high { result ≤ length ends.now }
    ensures between { All (λ r. (first ≤ r.outer) × (r.outer < past)) (slice_range ends.now low result) }
    ensures behind { All (λ r. past ≤ r.outer) (drop result ends.now) }
{
    let indices = past.saturating_sub(first) as usize;
    let most = ends.len().min(low.saturating_add(indices));
    low + count_within(&ends[low..most], past)
}

/// How many fibers of a part are before an outer index; without a search where all are.
#[inline(always)]
fn count_within(ends: &[FiberEnd], outer: u64) -> usize
    requires { AreApart ends.now }
    ensures bound { result ≤ length ends.now }
    ensures before { All (λ r. r.outer < outer) (take result ends.now) }
    ensures behind { All (λ r. outer ≤ r.outer) (drop result ends.now) }
{
    if ends.is_empty() {
        return 0;
    }
    if ends[ends.len() - 1].outer < outer {
        return ends.len();
    }
    count_before(ends, outer)
}

/// How many fibers of a part are before an outer index.
#[inline(always)]
fn count_before(ends: &[FiberEnd], outer: u64) -> usize
    requires { AreApart ends.now }
    ensures bound { result ≤ length ends.now }
    ensures before { All (λ r. r.outer < outer) (take result ends.now) }
    ensures behind { All (λ r. outer ≤ r.outer) (drop result ends.now) }
{
    ends.partition_point(|e| e.outer < outer)
}

/// Where the first fibers end.
#[inline(always)]
pub(crate) fn end_of(ends: &[FiberEnd], count: usize) -> usize
    requires { count ≤ length ends.now }
    ensures { result ≡ last_end 0 (take count ends.now) }
{
    if count == 0 {
        return 0;
    }
    ends[count - 1].end
}

/// Where a number stands in a part of a list that rises, or where it would stand.
pub(crate) fn seek(list: &[u64], start: usize, end: usize, x: u64) -> Result<usize, usize>
    requires low { start ≤ end }
    requires high { end ≤ length list.now }
    requires rises { RisesIn start end list.now }
    ensures bound { IsSearchInRange result (length list.now) }
    ensures found { IfOk result (IsFound x start end list.now) }
    ensures absent { IfErr result (IsAbsent x start end list.now) }
{
    match list[start..end].binary_search(&x) {
        Ok(at) => Ok(start + at),
        Err(at) => Err(start + at),
    }
}

/// The word at an outer and an inner index, where there is one.
pub(crate) fn find(
    ends: &[FiberEnd],
    inner: &[u64],
    words: &[u64],
    outer: u64,
    index: u64,
) -> Option<u64>
    requires { AreFlat ends.now inner.now words.now }
    ensures { result ≡ word_at (entries_from 0 ends.now inner.now words.now) outer index }
{
    let at = place(ends, inner, words, outer, index)?;
    Some(words[at])
}

/// The place of the entry at an outer and an inner index, where there is one.
pub(crate) fn place(
    ends: &[FiberEnd],
    inner: &[u64],
    words: &[u64],
    outer: u64,
    index: u64,
) -> Option<usize>
    requires { AreFlat ends.now inner.now words.now }
    ensures bound { IfSome result (λ at. at < length words.now) }
    ensures word { MatchOption result
        (word_at (entries_from 0 ends.now inner.now words.now) outer index ≡ None)
        (λ at. word_at (entries_from 0 ends.now inner.now words.now) outer index ≡ Some (slice_index words.now at)) }
{
    let Spot { start, end, .. } = fiber_near(ends, outer, NO_HINT);
    match seek(inner, start, end, index) {
        Ok(at) => Some(at),
        Err(_) => None,
    }
}

/// The fiber at an outer index: its inner indices, its words, and how many fibers are before it. The hint is a
/// guess at that number.
#[inline(always)]
pub(crate) fn fiber<'a>(
    ends: &[FiberEnd],
    inner: &'a [u64],
    words: &'a [u64],
    outer: u64,
    hint: usize,
) -> (&'a [u64], &'a [u64], usize)
    requires { AreFlat ends.now inner.now words.now }
    ensures lengths { length result.1.now ≡ length result.0.now }
    ensures entries { entries_along outer result.0.now result.1.now
        ≡ entries_in_row outer (entries_from 0 ends.now inner.now words.now) }
{
    let Spot { fiber, start, end } = fiber_near(ends, outer, hint);
    (part(inner, start, end), part(words, start, end), fiber)
}

/// A row of a column that is one fiber: a zero and its word, or nothing.
pub(crate) fn row_of_column<'a>(
    ends: &[FiberEnd],
    inner: &[u64],
    words: &'a [u64],
    row: u64,
) -> (&'a [u64], &'a [u64])
    requires { AreFlat ends.now inner.now words.now }
    ensures lengths { length result.1.now ≡ length result.0.now }
    ensures entries { entries_along row result.0.now result.1.now
        ≡ option_to_list (option_map (entry_at row 0) (word_at (entries_from 0 ends.now inner.now words.now) 0 row)) }
{
    match place(ends, inner, words, 0, row) {
        Some(at) => (&[0], part(words, at, at + 1)),
        None => (&[], &[]),
    }
}

/// The elements of a list from `start` up to before `end`.
#[inline(always)]
pub(crate) fn part(list: &[u64], start: usize, end: usize) -> &[u64]
    requires { (start ≤ end) × (end ≤ length list.now) }
    ensures { result.now ≡ slice_range list.now start end }
{
    &list[start..end]
}
