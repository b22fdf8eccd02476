//! Fibers whose entries stand at the same positions.
ghost use Rattle.std.specs.Prelude.{◌≡◌, ◌↔◌, ◌<◌, ◌≤◌, ◌∷◌, ℕ, length, map, true, IfOk, IsTrue};
ghost use Rattle.std.specs.List.{All, AllPairs};
ghost use Rattle.lanes.specs.Lists.{zip_with};
ghost use Rattle.model.specs.Entries.{word_at};
ghost use Rattle.store.specs.Fibers.{AreFlat, end_back, entries_in};
ghost use Rattle.store.specs.Stored.{along, block_content};
ghost use Rattle.store.specs.Walks.{AreLeft};
ghost use Rattle.masks.specs.Joins.{HaveSamePlaces, beside, both_of, join_word};

use crate::full::is_around;
use crate::join::Joining;
use lanes::zip_words;
use model::NoMemory;
use std::alloc::Global;
use store::{FiberEnd, FiberLists, Fibers, FlatFibers, RowBlock};

/// Whether fibers have their entries at the same positions. Where they have, that takes time for the entries, but for
/// one fiber a side without gaps; else it ends at the first position that differs.
pub fn are_alike(left: &Fibers<'_>, right: &Fibers<'_>) -> bool
    ensures { IsTrue result ↔ HaveSamePlaces left.now.entries right.now.entries }
{
    let (a, b) = (left.flat(), right.flat());
    if a.inner.len() != b.inner.len() {
        return false;
    }
    if a.inner.is_empty() {
        return true;
    }
    have_same_inner(&a, &b) && have_same_ends(&a, &b)
}

/// Whether fibers have the same inner indices, one fiber after the other.
fn have_same_inner(a: &FlatFibers<'_>, b: &FlatFibers<'_>) -> bool
    requires a { AreLeft a.now.from a.now.head a.now.others.now a.now.inner.now a.now.words.now }
    requires b { AreLeft b.now.from b.now.head b.now.others.now b.now.inner.now b.now.words.now }
    requires some { 0 < length a.now.inner.now }
    requires count { length b.now.inner.now ≡ length a.now.inner.now }
    ensures { IsTrue result ↔ (a.now.inner.now ≡ b.now.inner.now) }
{
    if a.others.is_empty() && b.others.is_empty() && are_same_run(a.inner, b.inner) {
        return true;
    }
    a.inner == b.inner
}

/// Whether two lists that rise are the same numbers without gaps, as those of full vectors are. It looks at their ends.
fn are_same_run(a: &[u64], b: &[u64]) -> bool
    requires a { AllPairs (λ x y. x < y) a.now }
    requires b { AllPairs (λ x y. x < y) b.now }
    requires count { length b.now ≡ length a.now }
    ensures { result ≡ true → a.now ≡ b.now }
{
    is_around(a, b) && is_around(b, a)
}

/// Whether fibers are at the same indices and have as many entries each.
fn have_same_ends(a: &FlatFibers<'_>, b: &FlatFibers<'_>) -> bool
    requires a { All (λ r. a.now.from ≤ r.end) (a.now.head ∷ a.now.others.now) }
    requires b { All (λ r. b.now.from ≤ r.end) (b.now.head ∷ b.now.others.now) }
    ensures { IsTrue result ↔ (map (end_back a.now.from) (a.now.head ∷ a.now.others.now)
        ≡ map (end_back b.now.from) (b.now.head ∷ b.now.others.now)) }
{
    is_same(a.head, a.from, b.head, b.from) && are_same(a.others, a.from, b.others, b.from)
}

/// Whether two fibers are at one index and end as far behind a place each.
#[inline(always)]
fn is_same(a: FiberEnd, a_from: usize, b: FiberEnd, b_from: usize) -> bool
    requires a { a_from ≤ a.end }
    requires b { b_from ≤ b.end }
    ensures { IsTrue result ↔ (end_back a_from a ≡ end_back b_from b) }
{
    a.outer == b.outer && a.end - a_from == b.end - b_from
}

/// Whether fibers are at the same indices and end as far behind a place each.
fn are_same(a: &[FiberEnd], a_from: usize, b: &[FiberEnd], b_from: usize) -> bool
    requires a { All (λ r. a_from ≤ r.end) a.now }
    requires b { All (λ r. b_from ≤ r.end) b.now }
    ensures { IsTrue result ↔ (map (end_back a_from) a.now ≡ map (end_back b_from) b.now) }
{
    if a.len() != b.len() {
        return false;
    }
    for k in 0..a.len() {
        if !is_same(a[k], a_from, b[k], b_from) {
            return false;
        }
    }
    true
}

/// The entries of fibers, each with what is made of its word and of the word that the other side has there. It
/// takes time and memory for the entries.
pub fn join_alike(
    alloc: Global,
    left: &Fibers<'_>,
    right: &Fibers<'_>,
    by: Joining,
) -> Result<FiberLists, NoMemory>
    requires { HaveSamePlaces left.now.entries right.now.entries }
    ensures flat { IfOk result (λ lists. AreFlat lists.ends.items lists.inner.items lists.words.items) }
    ensures entries { IfOk result (λ lists. entries_in lists
        ≡ beside (both_of by) left.now.entries right.now.entries) }
{
    let (ends, inner) = left.copy_places(alloc)?;
    let (lefts, rights) = (left.words(), right.words());
    let mut words = Vec::new(alloc);
    words.resize(lefts.len(), 0)?;
    join_both(by, lefts, rights, &mut words);
    Ok(FiberLists { ends, inner, words })
}

/// The rows of a block with what is made of each word of the left side and of the one that they have there. It takes
/// time for the entries, and memory for their words: their places are taken over.
pub(crate) fn join_over(
    alloc: Global,
    left: &Fibers<'_>,
    right: RowBlock,
    by: Joining,
) -> Result<RowBlock, NoMemory>
    requires { HaveSamePlaces left.now.entries (along right.cols right.entries) }
    ensures first { IfOk result (λ block. block.first ≡ right.first) }
    ensures past { IfOk result (λ block. block.past ≡ right.past) }
    ensures cols { IfOk result (λ block. block.cols ≡ right.cols) }
    ensures words { IfOk result (λ block. (i j : ℕ) → block_content block i j
        ≡ join_word by (word_at (along right.cols left.now.entries) i j) (block_content right i j)) }
{
    let (first, past, cols) = (right.first(), right.past(), right.cols());
    let FiberLists {
        ends,
        inner,
        words: rights,
    } = right.into_lists();
    let lefts = left.words();
    let mut words = Vec::new(alloc);
    words.resize(lefts.len(), 0)?;
    join_both(by, lefts, &rights, &mut words);
    let lists = FiberLists { ends, inner, words };
    Ok(RowBlock::of_fibers(first, past, cols, lists))
}

/// Makes each word what is made of two words side by side.
pub(crate) fn join_both(by: Joining, lefts: &[u64], rights: &[u64], words: &mut [u64])
    requires lefts { length lefts.now ≡ length words.old }
    requires rights { length rights.now ≡ length words.old }
    ensures length { length words.new ≡ length words.old }
    ensures words { words.new ≡ zip_with (both_of by) lefts.now rights.now }
{
    match by {
        Joining::Right => words.copy_from_slice(rights),
        Joining::Accumulate(op) | Joining::Unite(op) => zip_words(op, lefts, rights, words),
    }
}
