//! Index operators as tests of the entries of fibers.
ghost use Rattle.std.specs.Prelude.{◌≡◌, ◌<◌, ◌≤◌, ◌+◌, ◌++◌, ◌∷◌, ◌==◌, if◌then◌else◌, [], length, take, IfOk, OnOk};
ghost use Rattle.std.specs.List.{filter};
ghost use Rattle.elementwise.specs.Kept.{kept_indices, kept_words, passes_as_it_lies, is_passed};
ghost use Rattle.store.specs.Fibers.{AreFlat, end_at, entries_from, entries_in};
ghost use Rattle.store.specs.Walks.{AreLeft};

use algebra::IndexOp;
use lanes::with_index;
use model::NoMemory;
use std::alloc::Global;
use store::{FiberEnd, FiberLists, Fibers, FlatFibers};

/// For how many entries room is made at a time, so that few entries that pass touch no room for all.
const PART: usize = 2048;

/// A test of entries as they lie: of a column the row is the inner index.
#[derive(Clone, Copy)]
pub(crate) struct Test {
    pub(crate) op: IndexOp,
    pub(crate) s: u64,
    pub(crate) is_column: bool,
}

impl Test {
    /// Whether an entry passes.
    #[inline(always)]
    fn passes(self, outer: u64, inner: u64, word: u64) -> bool
        ensures { result ≡ is_passed self outer inner word }
    {
        if self.is_column {
            self.op.passes(word, inner, outer, self.s)
        } else {
            self.op.passes(word, outer, inner, self.s)
        }
    }
}

/// The entries of fibers that pass, in memory of their own.
pub(crate) fn pass_fibers(
    alloc: Global,
    fibers: &Fibers<'_>,
    test: Test,
) -> Result<FiberLists, NoMemory>
    ensures flat { IfOk result (λ lists. AreFlat lists.ends.items lists.inner.items lists.words.items) }
    ensures entries { IfOk result (λ lists. entries_in lists
        ≡ filter (passes_as_it_lies test) fibers.now.entries) }
{
    let flat = fibers.flat();
    if flat.inner.is_empty() {
        return Ok(FiberLists::new(alloc));
    }
    with_index!(test.op, |op| keep_fibers(alloc, Test { op, ..test }, &flat))
}

/// What `pass_fibers` gives of some entries, by one operator of its arms.
#[inline(always)]
fn keep_fibers(alloc: Global, test: Test, fibers: &FlatFibers<'_>) -> Result<FiberLists, NoMemory>
    requires left { AreLeft fibers.now.from fibers.now.head fibers.now.others.now fibers.now.inner.now
        fibers.now.words.now }
    requires some { 0 < length fibers.now.inner.now }
    ensures flat { IfOk result (λ lists. AreFlat lists.ends.items lists.inner.items lists.words.items) }
    ensures entries { IfOk result (λ lists. entries_in lists ≡ filter (passes_as_it_lies test)
        (entries_from fibers.now.from (fibers.now.head ∷ fibers.now.others.now) fibers.now.inner.now
        fibers.now.words.now)) }
{
    let mut ends = Vec::with_capacity(alloc, fibers.others.len() + 1)?;
    let mut kept = Kept::new(alloc, fibers.inner.len())?;
    let mut start = 0;
    for at in 0..fibers.others.len() + 1 {
        let FiberEnd { outer, end } = fibers.fiber(at);
        let past = end - fibers.from;
        let before = kept.count;
        pass_fiber(
            &mut kept,
            test,
            outer,
            &fibers.inner[start..past],
            &fibers.words[start..past],
        )?;
        close(&mut ends, outer, before, kept.count)?;
        start = past;
    }
    Ok(kept.into_lists(ends))
}

/// Ends a fiber of which there are entries, from one number of entries up to another.
#[inline(always)]
fn close(ends: &mut Vec<FiberEnd>, outer: u64, before: usize, end: usize) -> Result<(), NoMemory>
    ensures { OnOk result (ends.new.items
        ≡ (if before == end then ends.old.items else ends.old.items ++ end_at outer end ∷ [])) }
{
    if before != end {
        ends.push(FiberEnd { outer, end })?;
    }
    Ok(())
}

/// The first `count` entries of lists, which may be longer.
#[derive(Drop)]
struct Kept {
    inner: Vec<u64>,
    words: Vec<u64>,
    count: usize,
}

impl Kept {
    /// No entries, and room for so many: the room that is never written takes no memory.
    fn new(alloc: Global, room: usize) -> Result<Kept, NoMemory>
        ensures count { IfOk result (λ kept. kept.count ≡ 0) }
        ensures inner { IfOk result (λ kept. kept.inner.items ≡ []) }
        ensures words { IfOk result (λ kept. kept.words.items ≡ []) }
    {
        let mut inner = Vec::new(alloc);
        inner.try_reserve_exact(room)?;
        let mut words = Vec::new(alloc);
        words.try_reserve_exact(room)?;
        Ok(Kept {
            inner,
            words,
            count: 0,
        })
    }

    /// The lists of the entries, which are fibers with these ends.
    fn into_lists(self, ends: Vec<FiberEnd>) -> FiberLists
        ensures ends { result.ends.items ≡ ends.items }
        ensures inner { result.inner.items ≡ take self.count self.inner.items }
        ensures words { result.words.items ≡ take self.count self.words.items }
    {
        let Kept {
            mut inner,
            mut words,
            count,
        } = self;
        inner.truncate(count);
        words.truncate(count);
        let mut lists = FiberLists { ends, inner, words };
        lists.shrink_to_fit();
        lists
    }

    /// Appends the entries of a part of a fiber that pass.
    #[inline(always)]
    fn append(
        &mut self,
        test: Test,
        outer: u64,
        inner: &[u64],
        words: &[u64],
    ) -> Result<(), NoMemory>
        requires lengths { length words.now ≡ length inner.now }
        requires part { length inner.now ≤ 2048 }
        requires held { (self.old.count ≤ length self.old.inner.items)
            × (self.old.count ≤ length self.old.words.items) }
        ensures held { OnOk result ((self.new.count ≤ length self.new.inner.items)
            × (self.new.count ≤ length self.new.words.items)) }
        ensures inner { OnOk result (take self.new.count self.new.inner.items
            ≡ take self.old.count self.old.inner.items
            ++ kept_indices (is_passed test outer) inner.now words.now) }
        ensures words { OnOk result (take self.new.count self.new.words.items
            ≡ take self.old.count self.old.words.items
            ++ kept_words (is_passed test outer) inner.now words.now) }
    {
        make_room(&mut self.inner, self.count, inner.len())?;
        make_room(&mut self.words, self.count, inner.len())?;
        let (to_inner, to_words) = (&mut self.inner, &mut self.words);
        self.count = pass_part(test, outer, inner, words, to_inner, to_words, self.count);
        Ok(())
    }
}

/// Makes room for so many numbers more behind the first `count` of a list, and for a part where the list
/// has it.
#[inline(always)]
fn make_room(list: &mut Vec<u64>, count: usize, more: usize) -> Result<(), NoMemory>
    requires count { count ≤ length list.old.items }
    requires more { more ≤ 2048 }
    ensures front { take count list.new.items ≡ take count list.old.items }
    ensures room { OnOk result (count + more ≤ length list.new.items) }
    ensures held { count ≤ length list.new.items }
{
    if list.len() - count < more {
        let some = (count + PART).min(list.capacity());
        list.resize(some.max(count + more), 0)?;
    }
    Ok(())
}

/// Appends the entries of a fiber that pass, part by part.
#[inline(always)]
fn pass_fiber(
    kept: &mut Kept,
    test: Test,
    outer: u64,
    inner: &[u64],
    words: &[u64],
) -> Result<(), NoMemory>
    requires lengths { length words.now ≡ length inner.now }
    requires held { (kept.old.count ≤ length kept.old.inner.items) × (kept.old.count ≤ length kept.old.words.items) }
    ensures held { OnOk result ((kept.new.count ≤ length kept.new.inner.items)
        × (kept.new.count ≤ length kept.new.words.items)) }
    ensures inner { OnOk result (take kept.new.count kept.new.inner.items ≡ take kept.old.count kept.old.inner.items
        ++ kept_indices (is_passed test outer) inner.now words.now) }
    ensures words { OnOk result (take kept.new.count kept.new.words.items ≡ take kept.old.count kept.old.words.items
        ++ kept_words (is_passed test outer) inner.now words.now) }
{
    let mut start = 0;
    while start < inner.len() {
        let past = start + (inner.len() - start).min(PART);
        kept.append(test, outer, &inner[start..past], &words[start..past])?;
        start = past;
    }
    Ok(())
}

/// Writes the entries of a part of a fiber that pass behind the first `count` of two lists, and answers how
/// many there are then.
#[inline(always)]
fn pass_part(
    test: Test,
    outer: u64,
    inner: &[u64],
    words: &[u64],
    to_inner: &mut [u64],
    to_words: &mut [u64],
    count: usize,
) -> usize
    requires lengths { length words.now ≡ length inner.now }
    requires inner { count + length inner.now ≤ length to_inner.old }
    requires words { count + length inner.now ≤ length to_words.old }
    ensures bound { result ≤ count + length inner.now }
    ensures inner_length { length to_inner.new ≡ length to_inner.old }
    ensures words_length { length to_words.new ≡ length to_words.old }
    ensures inner { take result to_inner.new
        ≡ take count to_inner.old ++ kept_indices (is_passed test outer) inner.now words.now }
    ensures words { take result to_words.new
        ≡ take count to_words.old ++ kept_words (is_passed test outer) inner.now words.now }
{
    let mut kept = count;
    for k in 0..inner.len() {
        // Without a branch: whether an entry passes can't be foreseen.
        to_inner[kept] = inner[k];
        to_words[kept] = words[k];
        kept += usize::from(test.passes(outer, inner[k], words[k]));
    }
    kept
}
