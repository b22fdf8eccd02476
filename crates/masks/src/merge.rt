//! Fibers merged: at each place of two sides the inner index, the word of each side, and which sides are
//! there.
ghost use Rattle.std.specs.Prelude.{◌≡◌, ◌<◌, ◌≤◌, ◌+◌, ◌*◌, ◌^◌, length, take, [], IfOk, OnOk};
ghost use Rattle.std.specs.List.{AllPairs};
ghost use Rattle.masks.specs.Merges.{AreMerged, IsFiberMerge};

use model::NoMemory;
use std::alloc::Global;
use store::{FiberEnd, FiberLists, Fibers};

/// Places of a merge, in memory that one merge after another uses.
#[derive(Drop)]
pub(crate) struct Places {
    /// The fibers of the places, with the words that are made. Behind its places the list of inner indices has room.
    pub(crate) lists: FiberLists,
    /// What the words are made of: the left words, the right ones, and which sides are there.
    pub(crate) sources: Vec<u64>,
}

impl Places {
    /// No places. They take no memory.
    pub(crate) fn new(alloc: Global) -> Places {
        Places {
            lists: FiberLists::new(alloc),
            sources: Vec::new(alloc),
        }
    }

    /// Makes room for so many places, and forgets where fibers end.
    pub(crate) fn make_room(&mut self, count: usize) -> Result<(), NoMemory>
        requires { 3 * count < 2 ^ 64 }
        ensures ends { self.new.lists.ends.items ≡ [] }
        ensures inner { OnOk result (length self.new.lists.inner.items ≡ count) }
        ensures sources { OnOk result (3 * count ≤ length self.new.sources.items) }
    {
        self.lists.ends.clear();
        self.lists.inner.resize(count, 0)?;
        if self.sources.len() < 3 * count {
            self.sources.resize(3 * count, 0)?;
        }
        Ok(())
    }

    /// The fibers of so many places; room that they don't use is let go.
    pub(crate) fn into_lists(self, count: usize) -> FiberLists
        ensures ends { result.ends.items ≡ self.lists.ends.items }
        ensures inner { result.inner.items ≡ take count self.lists.inner.items }
        ensures words { result.words.items ≡ self.lists.words.items }
    {
        let mut lists = self.lists;
        lists.inner.truncate(count);
        lists.shrink_to_fit();
        lists
    }
}

/// How many places a merge has at most.
pub(crate) fn most_places(left: &Fibers<'_>, right: &Fibers<'_>) -> usize
    ensures count { result ≡ length left.now.entries + length right.now.entries }
    ensures room { 3 * result < 2 ^ 64 }
{
    left.words().len() + right.words().len()
}

/// Merges two fibers, and answers how many places there are. The side of a place is 1 where the left is
/// there alone, 2 where the right is, and 3 where both are.
fn merge_fiber(
    left: &[u64],
    left_words: &[u64],
    right: &[u64],
    right_words: &[u64],
    inner: &mut [u64],
    lefts: &mut [u64],
    rights: &mut [u64],
    sides: &mut [u64],
) -> usize
    requires left_rises { AllPairs (λ x y. x < y) left.now }
    requires right_rises { AllPairs (λ x y. x < y) right.now }
    requires left_words { length left_words.now ≡ length left.now }
    requires right_words { length right_words.now ≡ length right.now }
    requires inner_room { length left.now + length right.now ≤ length inner.old }
    requires lefts_room { length lefts.old ≡ length inner.old }
    requires rights_room { length rights.old ≡ length inner.old }
    requires sides_room { length sides.old ≡ length inner.old }
    ensures bound { result ≤ length left.now + length right.now }
    ensures inner_length { length inner.new ≡ length inner.old }
    ensures lefts_length { length lefts.new ≡ length inner.old }
    ensures rights_length { length rights.new ≡ length inner.old }
    ensures sides_length { length sides.new ≡ length inner.old }
    ensures merged { IsFiberMerge left.now left_words.now right.now right_words.now result
        inner.new lefts.new rights.new sides.new }
{
    if left == right {
        return merge_same(left, left_words, right_words, inner, lefts, rights, sides);
    }
    merge_others(
        left,
        left_words,
        right,
        right_words,
        inner,
        lefts,
        rights,
        sides,
    )
}

/// The same, by steps along both.
#[inline(never)]
fn merge_others(
    left: &[u64],
    left_words: &[u64],
    right: &[u64],
    right_words: &[u64],
    inner: &mut [u64],
    lefts: &mut [u64],
    rights: &mut [u64],
    sides: &mut [u64],
) -> usize
    requires left_rises { AllPairs (λ x y. x < y) left.now }
    requires right_rises { AllPairs (λ x y. x < y) right.now }
    requires left_words { length left_words.now ≡ length left.now }
    requires right_words { length right_words.now ≡ length right.now }
    requires inner_room { length left.now + length right.now ≤ length inner.old }
    requires lefts_room { length lefts.old ≡ length inner.old }
    requires rights_room { length rights.old ≡ length inner.old }
    requires sides_room { length sides.old ≡ length inner.old }
    ensures bound { result ≤ length left.now + length right.now }
    ensures inner_length { length inner.new ≡ length inner.old }
    ensures lefts_length { length lefts.new ≡ length inner.old }
    ensures rights_length { length rights.new ≡ length inner.old }
    ensures sides_length { length sides.new ≡ length inner.old }
    ensures merged { IsFiberMerge left.now left_words.now right.now right_words.now result
        inner.new lefts.new rights.new sides.new }
{
    let mut i = 0;
    let mut j = 0;
    let mut k = 0;
    while i < left.len() && j < right.len() {
        let (p, q) = (left[i], right[j]);
        inner[k] = if p < q { p } else { q };
        lefts[k] = left_words[i];
        rights[k] = right_words[j];
        sides[k] = u64::from(p <= q) + 2 * u64::from(q <= p);
        i += usize::from(p <= q);
        j += usize::from(q <= p);
        k += 1;
    }
    while i < left.len() {
        inner[k] = left[i];
        lefts[k] = left_words[i];
        rights[k] = 0;
        sides[k] = 1;
        i += 1;
        k += 1;
    }
    while j < right.len() {
        inner[k] = right[j];
        lefts[k] = 0;
        rights[k] = right_words[j];
        sides[k] = 2;
        j += 1;
        k += 1;
    }
    k
}

/// Merges two fibers that have the same inner indices, and answers how many places there are.
#[inline(always)]
fn merge_same(
    both: &[u64],
    left_words: &[u64],
    right_words: &[u64],
    inner: &mut [u64],
    lefts: &mut [u64],
    rights: &mut [u64],
    sides: &mut [u64],
) -> usize
    requires rises { AllPairs (λ x y. x < y) both.now }
    requires left_words { length left_words.now ≡ length both.now }
    requires right_words { length right_words.now ≡ length both.now }
    requires inner_room { length both.now ≤ length inner.old }
    requires lefts_room { length lefts.old ≡ length inner.old }
    requires rights_room { length rights.old ≡ length inner.old }
    requires sides_room { length sides.old ≡ length inner.old }
    ensures count { result ≡ length both.now }
    ensures inner_length { length inner.new ≡ length inner.old }
    ensures lefts_length { length lefts.new ≡ length inner.old }
    ensures rights_length { length rights.new ≡ length inner.old }
    ensures sides_length { length sides.new ≡ length inner.old }
    ensures merged { IsFiberMerge both.now left_words.now both.now right_words.now result
        inner.new lefts.new rights.new sides.new }
{
    let count = both.len();
    inner[..count].copy_from_slice(both);
    lefts[..count].copy_from_slice(left_words);
    rights[..count].copy_from_slice(right_words);
    sides[..count].fill(3);
    count
}

/// Merges fibers, one outer index after another, and answers how many places there are.
pub(crate) fn merge_fibers<'a>(
    mut left: Fibers<'a>,
    mut right: Fibers<'a>,
    ends: &mut Vec<FiberEnd>,
    inner: &mut [u64],
    lefts: &mut [u64],
    rights: &mut [u64],
    sides: &mut [u64],
) -> Result<usize, NoMemory>
    requires none { ends.old.items ≡ [] }
    requires inner_room { length left.entries + length right.entries ≤ length inner.old }
    requires lefts_room { length lefts.old ≡ length inner.old }
    requires rights_room { length rights.old ≡ length inner.old }
    requires sides_room { length sides.old ≡ length inner.old }
    ensures bound { IfOk result (λ count. count ≤ length inner.old) }
    ensures inner_length { length inner.new ≡ length inner.old }
    ensures lefts_length { length lefts.new ≡ length inner.old }
    ensures rights_length { length rights.new ≡ length inner.old }
    ensures sides_length { length sides.new ≡ length inner.old }
    ensures merged { IfOk result (λ count. AreMerged
        left.entry.entries right.entry.entries count ends.new.items inner.new lefts.new rights.new sides.new) }
{
    let mut count = 0;
    while left.len() > 0 || right.len() > 0 {
        let outer = left.least(&right);
        let (a, a_words, left_rest) = left.split(outer);
        let (b, b_words, right_rest) = right.split(outer);
        left = left_rest;
        right = right_rest;
        count += merge_fiber(
            a,
            a_words,
            b,
            b_words,
            &mut inner[count..],
            &mut lefts[count..],
            &mut rights[count..],
            &mut sides[count..],
        );
        ends.push(FiberEnd { outer, end: count })?;
    }
    Ok(count)
}
