//! Entries put into a column, in place.
ghost use Rattle.std.specs.Prelude.{◌≡◌, ◌<◌, ◌≤◌, ◌+◌, ◌++◌, ◌∷◌, [], false, if◌then◌else◌};
ghost use Rattle.std.specs.Prelude.{drop, length, replicate, take};
ghost use Rattle.std.specs.Prelude.{ℕ, IfErr, IfOk, OnErr, OnOk, slice_index, vec_capacity};
ghost use Rattle.std.specs.List.{All, AllPairs};
ghost use Rattle.std.specs.List.Sorted.{IsSearchInRange};
ghost use Rattle.model.specs.Entries.{InOrder, entry_at};
ghost use Rattle.store.specs.Entries.{HasSet};
ghost use Rattle.store.specs.Fibers.{IsAbsent, IsFound, RisesIn, end_at};
ghost use Rattle.store.specs.Puts.{HasPut, around, has, missing};
ghost use Rattle.store.specs.Walks.{entries_down};

use crate::finding::seek;
use crate::{FiberEnd, FiberLists};
use model::NoMemory;

/// Puts the entries of a column into another, each over the one at its row or between two. The entries behind the
/// first new one are moved once, and each of those that are put takes two searches.
pub(crate) fn put_column(lists: &mut FiberLists, column: &FiberLists) -> Result<(), NoMemory>
    requires old_words { length lists.old.words.items ≡ length lists.old.inner.items }
    requires old_rises { AllPairs (λ x y. x < y) lists.old.inner.items }
    requires words { length column.now.words.items ≡ length column.now.inner.items }
    requires rises { AllPairs (λ x y. x < y) column.now.inner.items }
    requires some { 0 < length column.now.inner.items }
    ensures ends { OnOk result (lists.new.ends.items ≡ end_at 0 (length lists.new.inner.items) ∷ []) }
    ensures lengths { OnOk result (length lists.new.words.items ≡ length lists.new.inner.items) }
    ensures some { OnOk result (0 < length lists.new.inner.items) }
    ensures put { OnOk result (HasPut (entries_down column.now.inner.items column.now.words.items)
        (entries_down lists.old.inner.items lists.old.words.items)
        (entries_down lists.new.inner.items lists.new.words.items)) }
    ensures refused { OnErr result ((lists.new.ends.items ≡ lists.old.ends.items)
        × (lists.new.inner.items ≡ lists.old.inner.items)
        × (lists.new.words.items ≡ lists.old.words.items)) }
{
    let old = lists.inner.len();
    let count = count_missing(&lists.inner, &column.inner);
    lengthen(lists, count)?;
    merge_back(
        &mut lists.inner,
        &mut lists.words,
        old,
        &column.inner,
        &column.words,
    );
    let end = lists.inner.len();
    lists.ends.clear();
    lists.ends.push_reserved(FiberEnd { outer: 0, end });
    Ok(())
}

/// How many of some rows, which rise, aren't in a list that rises.
fn count_missing(list: &[u64], rows: &[u64]) -> usize
    requires list { AllPairs (λ x y. x < y) list.now }
    requires rows { AllPairs (λ x y. x < y) rows.now }
    ensures { result ≡ missing list.now rows.now }
{
    let mut count = 0;
    let mut left = list.len();
    let mut k = rows.len();
    while k > 0 {
        k -= 1;
        match seek_back(list, left, rows[k]) {
            Ok(at) => left = at,
            Err(at) => {
                left = at;
                count += 1;
            }
        }
    }
    count
}

/// Makes the inner indices and the words longer by so many zeros, and makes room for an end.
fn lengthen(lists: &mut FiberLists, count: usize) -> Result<(), NoMemory>
    requires { length lists.old.words.items ≡ length lists.old.inner.items }
    ensures ends { lists.new.ends.items ≡ lists.old.ends.items }
    ensures inner { OnOk result (lists.new.inner.items ≡ lists.old.inner.items ++ replicate count 0) }
    ensures words { OnOk result (lists.new.words.items ≡ lists.old.words.items ++ replicate count 0) }
    ensures room { OnOk result (0 < vec_capacity lists.new.ends) }
    ensures inner_kept { OnErr result (lists.new.inner.items ≡ lists.old.inner.items) }
    ensures words_kept { OnErr result (lists.new.words.items ≡ lists.old.words.items) }
{
    lists.ends.reserve(1)?;
    lists.inner.reserve(count)?;
    lists.words.reserve(count)?;
    let length = lists.inner.len() + count;
    lists.inner.resize(length, 0)?;
    lists.words.resize(length, 0)?;
    Ok(())
}

/// Merges rows, which rise, with their words into the first `old` places of lists, from the back. Behind these
/// places there is as much room as it takes.
fn merge_back(inner: &mut [u64], words: &mut [u64], old: usize, rows: &[u64], row_words: &[u64])
    requires lengths { length words.old ≡ length inner.old }
    requires row_words { length row_words.now ≡ length rows.now }
    requires old_rises { AllPairs (λ x y. x < y) (take old inner.old) }
    requires rises { AllPairs (λ x y. x < y) rows.now }
    requires room { length inner.old ≡ old + missing (take old inner.old) rows.now }
    ensures inner_length { length inner.new ≡ length inner.old }
    ensures words_length { length words.new ≡ length words.old }
    ensures put { HasPut (entries_down rows.now row_words.now)
        (entries_down (take old inner.old) (take old words.old)) (entries_down inner.new words.new) }
{
    let mut left = old;
    let mut gap = inner.len() - old;
    let mut k = rows.len();
    while k > 0 {
        k -= 1;
        (left, gap) = put_before(inner, words, left, gap, rows[k], row_words[k]);
    }
}

/// Puts a row and its word in their place among those before a gap: over the one that is there, or into the last
/// place of the gap. What is behind that place is moved behind the gap. It answers how many are left before the gap
/// and how long that is now.
fn put_before(
    inner: &mut [u64],
    words: &mut [u64],
    left: usize,
    gap: usize,
    row: u64,
    word: u64,
) -> (usize, usize)
    requires lengths { length words.old ≡ length inner.old }
    requires inside { left + gap ≤ length inner.old }
    requires order { InOrder (entries_down (around left gap inner.old) (around left gap words.old)) }
    requires above { All (λ x. row < x) (drop (left + gap) inner.old) }
    requires room { has (take left inner.old) row ≡ false → 0 < gap }
    ensures inner_length { length inner.new ≡ length inner.old }
    ensures words_length { length words.new ≡ length words.old }
    ensures high { result.0 ≤ left }
    ensures gap { result.1 + (if has (take left inner.old) row then 0 else 1) ≡ gap }
    ensures kept { take result.0 inner.new ≡ take result.0 inner.old }
    ensures behind { All (λ x. row ≤ x) (drop result.0 (take left inner.old)) }
    ensures above { All (λ x. row ≤ x) (drop (result.0 + result.1) inner.new) }
    ensures set { HasSet (entry_at row 0 word) (entries_down (around left gap inner.old) (around left gap words.old))
        (entries_down (around result.0 result.1 inner.new) (around result.0 result.1 words.new)) }
{
    match seek_back(inner, left, row) {
        Ok(at) => {
            move_behind(inner, at, left, gap);
            move_behind(words, at, left, gap);
            words[at + gap] = word;
            (at, gap)
        }
        Err(at) => {
            move_behind(inner, at, left, gap);
            move_behind(words, at, left, gap);
            let gap = gap - 1;
            inner[at + gap] = row;
            words[at + gap] = word;
            (at, gap)
        }
    }
}

/// From so many places on a gap is wide enough that what is behind it is moved in parts.
const WIDE: usize = 16;

/// Moves what stands from a place up to a gap behind the gap. Without a gap nothing is moved.
fn move_behind(list: &mut [u64], at: usize, left: usize, gap: usize)
    requires low { at ≤ left }
    requires inside { left + gap ≤ length list.old }
    ensures length { length list.new ≡ length list.old }
    ensures around { around at gap list.new ≡ around left gap list.old }
    ensures kept { take at list.new ≡ take at list.old }
{
    if gap >= WIDE {
        move_in_parts(list, at, left, gap);
    } else if gap > 0 {
        list.copy_within(at..left, at + gap);
    }
}

/// The same from the back, in parts that are no longer than the gap: none lies over its new place, so that all of it
/// is copied at once.
fn move_in_parts(list: &mut [u64], at: usize, left: usize, gap: usize)
    requires low { at ≤ left }
    requires inside { left + gap ≤ length list.old }
    requires some { 0 < gap }
    ensures length { length list.new ≡ length list.old }
    ensures around { around at gap list.new ≡ around left gap list.old }
    ensures kept { take at list.new ≡ take at list.old }
{
    let mut end = left;
    while end > at {
        let from = at.max(end.saturating_sub(gap));
        move_part(list, from, end, gap);
        end = from;
    }
}

/// Moves what stands from a place up to a gap behind the gap, where it is no longer than that.
fn move_part(list: &mut [u64], from: usize, end: usize, gap: usize)
    requires low { from ≤ end }
    requires fits { end ≤ from + gap }
    requires inside { end + gap ≤ length list.old }
    ensures length { length list.new ≡ length list.old }
    ensures around { around from gap list.new ≡ around end gap list.old }
    ensures kept { take from list.new ≡ take from list.old }
{
    let (low, high) = list.split_at_mut(from + gap);
    high[..end - from].copy_from_slice(&low[from..end]);
}

/// Where a row stands among the first `left` ones of a list, or where it would stand. Its time grows with the logarithm
/// of how far from the last of them that is: whoever goes back along rows takes short searches where these lie close.
fn seek_back(list: &[u64], left: usize, row: u64) -> Result<usize, usize>
    requires high { left ≤ length list.now }
    requires rises { RisesIn 0 left list.now }
    ensures bound { IsSearchInRange result (length list.now) }
    ensures found { IfOk result (IsFound row 0 left list.now) }
    ensures absent { IfErr result (IsAbsent row 0 left list.now) }
{
    seek(list, start_before(list, left, row), left, row)
}

/// A place before which all rows are less than a given one: the first such one of those that lie 1, 2, 4 and so on
/// before `left`.
fn start_before(list: &[u64], left: usize, row: u64) -> usize
    requires high { left ≤ length list.now }
    requires rises { RisesIn 0 left list.now }
    ensures high { result ≤ left }
    ensures before { (n : ℕ) → n < result → slice_index list.now n < row }
{
    let mut width = 1;
    while width < left {
        if list[left - width] < row {
            return left - width;
        }
        width = width.saturating_mul(2);
    }
    0
}
