//! Positions that two sides have both, with the words of each side by side.
ghost use Rattle.std.specs.Prelude.{◌≡◌, ◌<◌, ◌≤◌, ◌*◌, ◌^◌, length, take, [], IfOk, OnOk};
ghost use Rattle.std.specs.List.{AllPairs};
ghost use Rattle.elementwise.specs.Meets.{AreFiberPairs, AreMet};

use model::NoMemory;
use std::alloc::Global;
use store::{FiberEnd, FiberLists, Fibers};

/// Positions that two sides have both, in memory that one search after another uses.
#[derive(Drop)]
pub(crate) struct Pairs {
    /// The fibers of the positions, with the words that are made. Behind its positions the list of inner indices has
    /// room.
    pub(crate) lists: FiberLists,
    /// What the words are made of: the left words, and the right ones.
    pub(crate) sources: Vec<u64>,
}

impl Pairs {
    /// No positions. They take no memory.
    pub(crate) fn new(alloc: Global) -> Pairs {
        Pairs {
            lists: FiberLists::new(alloc),
            sources: Vec::new(alloc),
        }
    }

    /// Makes room for so many positions, and forgets where fibers end.
    pub(crate) fn make_room(&mut self, count: usize) -> Result<(), NoMemory>
        requires { 2 * count < 2 ^ 64 }
        ensures ends { self.new.lists.ends.items ≡ [] }
        ensures inner { OnOk result (length self.new.lists.inner.items ≡ count) }
        ensures sources { OnOk result (2 * count ≤ length self.new.sources.items) }
    {
        self.lists.ends.clear();
        self.lists.inner.resize(count, 0)?;
        if self.sources.len() < 2 * count {
            self.sources.resize(2 * count, 0)?;
        }
        Ok(())
    }

    /// The fibers of so many positions; room that they don't use is let go.
    pub(crate) fn into_lists(self, count: usize) -> FiberLists
        ensures ends { result.ends.items ≡ self.lists.ends.items }
        ensures inner { result.inner.items ≡ take count self.lists.inner.items }
        ensures words { result.words.items ≡ self.lists.words.items }
    {
        let mut lists = self.lists;
        lists.inner.truncate(count);
        lists.shrink_to_fit();
        lists
    }
}

/// Finds the positions that fibers have on both sides, one outer index after another, and answers how many
/// there are.
pub(crate) fn pair_fibers<'a>(
    mut left: Fibers<'a>,
    mut right: Fibers<'a>,
    ends: &mut Vec<FiberEnd>,
    inner: &mut [u64],
    lefts: &mut [u64],
    rights: &mut [u64],
) -> Result<usize, NoMemory>
    requires none { ends.old.items ≡ [] }
    requires inner_room { length left.entries ≤ length inner.old }
    requires lefts_room { length lefts.old ≡ length inner.old }
    requires rights_room { length rights.old ≡ length inner.old }
    ensures bound { IfOk result (λ count. count ≤ length inner.old) }
    ensures inner_length { length inner.new ≡ length inner.old }
    ensures lefts_length { length lefts.new ≡ length inner.old }
    ensures rights_length { length rights.new ≡ length inner.old }
    ensures met { IfOk result (λ count. AreMet
        left.entry.entries right.entry.entries count ends.new.items inner.new lefts.new rights.new) }
{
    let mut count = 0;
    while left.len() > 0 && right.len() > 0 {
        let outer = left.least(&right);
        let (a, a_words, left_rest) = left.split(outer);
        let (b, b_words, right_rest) = right.split(outer);
        left = left_rest;
        right = right_rest;
        let found = pair_fiber(
            a,
            a_words,
            b,
            b_words,
            &mut inner[count..],
            &mut lefts[count..],
            &mut rights[count..],
        );
        count += found;
        if found > 0 {
            ends.push(FiberEnd { outer, end: count })?;
        }
    }
    Ok(count)
}

/// Finds the inner indices that two fibers have both, and answers how many there are.
fn pair_fiber(
    left: &[u64],
    left_words: &[u64],
    right: &[u64],
    right_words: &[u64],
    inner: &mut [u64],
    lefts: &mut [u64],
    rights: &mut [u64],
) -> usize
    requires left_rises { AllPairs (λ x y. x < y) left.now }
    requires right_rises { AllPairs (λ x y. x < y) right.now }
    requires left_words { length left_words.now ≡ length left.now }
    requires right_words { length right_words.now ≡ length right.now }
    requires inner_room { length left.now ≤ length inner.old }
    requires lefts_room { length lefts.old ≡ length inner.old }
    requires rights_room { length rights.old ≡ length inner.old }
    ensures bound { result ≤ length left.now }
    ensures inner_length { length inner.new ≡ length inner.old }
    ensures lefts_length { length lefts.new ≡ length inner.old }
    ensures rights_length { length rights.new ≡ length inner.old }
    ensures met { AreFiberPairs left.now left_words.now right.now right_words.now result
        inner.new lefts.new rights.new }
{
    if left == right {
        return pair_same(left, left_words, right_words, inner, lefts, rights);
    }
    pair_others(left, left_words, right, right_words, inner, lefts, rights)
}

/// The same, by steps along both.
#[inline(never)]
fn pair_others(
    left: &[u64],
    left_words: &[u64],
    right: &[u64],
    right_words: &[u64],
    inner: &mut [u64],
    lefts: &mut [u64],
    rights: &mut [u64],
) -> usize
    requires left_rises { AllPairs (λ x y. x < y) left.now }
    requires right_rises { AllPairs (λ x y. x < y) right.now }
    requires left_words { length left_words.now ≡ length left.now }
    requires right_words { length right_words.now ≡ length right.now }
    requires inner_room { length left.now ≤ length inner.old }
    requires lefts_room { length lefts.old ≡ length inner.old }
    requires rights_room { length rights.old ≡ length inner.old }
    ensures bound { result ≤ length left.now }
    ensures inner_length { length inner.new ≡ length inner.old }
    ensures lefts_length { length lefts.new ≡ length inner.old }
    ensures rights_length { length rights.new ≡ length inner.old }
    ensures met { AreFiberPairs left.now left_words.now right.now right_words.now result
        inner.new lefts.new rights.new }
{
    let mut i = 0;
    let mut j = 0;
    let mut k = 0;
    while i < left.len() && j < right.len() {
        // Without a branch: a place is written in any case, and kept where both indices are equal.
        let (p, q) = (left[i], right[j]);
        inner[k] = p;
        lefts[k] = left_words[i];
        rights[k] = right_words[j];
        k += usize::from(p == q);
        i += usize::from(p <= q);
        j += usize::from(q <= p);
    }
    k
}

/// The same, where both fibers have the same inner indices.
#[inline(always)]
fn pair_same(
    both: &[u64],
    left_words: &[u64],
    right_words: &[u64],
    inner: &mut [u64],
    lefts: &mut [u64],
    rights: &mut [u64],
) -> usize
    requires rises { AllPairs (λ x y. x < y) both.now }
    requires left_words { length left_words.now ≡ length both.now }
    requires right_words { length right_words.now ≡ length both.now }
    requires inner_room { length both.now ≤ length inner.old }
    requires lefts_room { length lefts.old ≡ length inner.old }
    requires rights_room { length rights.old ≡ length inner.old }
    ensures count { result ≡ length both.now }
    ensures inner_length { length inner.new ≡ length inner.old }
    ensures lefts_length { length lefts.new ≡ length inner.old }
    ensures rights_length { length rights.new ≡ length inner.old }
    ensures met { AreFiberPairs both.now left_words.now both.now right_words.now result
        inner.new lefts.new rights.new }
{
    let count = both.len();
    inner[..count].copy_from_slice(both);
    lefts[..count].copy_from_slice(left_words);
    rights[..count].copy_from_slice(right_words);
    count
}
