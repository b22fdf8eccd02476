//! Sums of rows and of all entries.
ghost use Rattle.std.specs.Prelude.{◌≡◌, ℕ, ◌<◌, ◌≤◌, ◌+◌, ◌∷◌, ◌==◌, if◌then◌else◌, IfOk, None, length, map};
ghost use Rattle.model.specs.Entries.{word_at};
ghost use Rattle.elementwise.specs.Sums.{folded, row_sum, sums_of};
ghost use Rattle.lanes.specs.Lists.{fold_of};
ghost use Rattle.model.specs.Reductions.{all_words, row_words};
ghost use Rattle.std.specs.List.{All};
ghost use Rattle.store.specs.Fibers.{AreFlat, entries_in};
ghost use Rattle.store.specs.Stored.{AreIn, block_content, content_of, transposed};
ghost use Rattle.store.specs.Walks.{AreLeft};

use crate::folding::WordFolder;
use crate::mapping::map_fibers;
use algebra::Monoid;
use bitmap::OneThread;
use lanes::{WordFunction, with_monoid};
use model::NoMemory;
use std::alloc::Global;
use std::ops::Range;
use store::{FiberEnd, FiberLists, Fibers, FlatFibers, Form, RowBlock, Sparse, Store};

/// The rows in a range of the column of the sums of a store's rows by a monoid (`GrB_reduce` to a
/// vector): each row that has an entry has a sum.
pub fn reduce_rows(
    alloc: Global,
    a: &Sparse,
    monoid: Monoid,
    range: Range<u64>,
) -> Result<RowBlock, NoMemory>
    requires { range.start ≤ range.end }
    ensures first { IfOk result (λ block. block.first ≡ range.start) }
    ensures past { IfOk result (λ block. block.past ≡ range.end) }
    ensures cols { IfOk result (λ block. block.cols ≡ 1) }
    ensures words { IfOk result (λ block. (i j : ℕ) → range.start ≤ i → i < range.end
        → block_content block i j
        ≡ (if j == 0 then folded monoid (row_words a.now.cols (content_of a.now) i) else None)) }
{
    let (first, past) = (range.start, range.end);
    let fibers = a.fibers_in(first..past);
    if a.cols() == 1 {
        // Each row has one word, which is combined with the identity: where it is of another domain, that
        // brings it into the monoid's.
        let (op, value) = (monoid.op, monoid.identity());
        let lists = map_fibers(alloc, &fibers, WordFunction::First { op, value })?;
        return Ok(RowBlock::of_fibers(first, past, 1, lists));
    }
    let lists = sum_fibers(alloc, monoid, &fibers)?;
    Ok(RowBlock::of_fibers(first, past, 1, lists))
}

/// The sums of fibers that are rows, as a column.
fn sum_fibers(alloc: Global, monoid: Monoid, fibers: &Fibers<'_>) -> Result<FiberLists, NoMemory>
    ensures flat { IfOk result (λ lists. AreFlat lists.ends.items lists.inner.items lists.words.items) }
    ensures inside { IfOk result (λ lists. (first past : ℕ)
        → All (λ e. (first ≤ e.row) × (e.row < past)) fibers.now.entries
        → AreIn first past 1 (transposed (entries_in lists))) }
    ensures sums { IfOk result (λ lists. (i j : ℕ) → word_at (transposed (entries_in lists)) i j
        ≡ (if j == 0 then row_sum monoid i fibers.now.entries else None)) }
{
    let flat = fibers.flat();
    if flat.inner.is_empty() {
        return Ok(FiberLists::new(alloc));
    }
    let (inner, words) = sum_rows(alloc, monoid, &flat)?;
    let ends = Vec::new(alloc);
    let mut lists = FiberLists { ends, inner, words };
    lists.close(0)?;
    Ok(lists)
}

/// What `reduce_rows` gives of fibers that are rows: their outer indices, and beside each its sum.
fn sum_rows(
    alloc: Global,
    monoid: Monoid,
    fibers: &FlatFibers<'_>,
) -> Result<(Vec<u64>, Vec<u64>), NoMemory>
    requires left { AreLeft fibers.now.from fibers.now.head fibers.now.others.now fibers.now.inner.now
        fibers.now.words.now }
    requires some { 0 < length fibers.now.inner.now }
    ensures rows { IfOk result (λ made. made.0.items ≡ map (λ r. r.outer) (fibers.now.head ∷ fibers.now.others.now)) }
    ensures sums { IfOk result (λ made. made.1.items ≡ sums_of monoid.kind monoid.op.domain fibers.now.from
        (fibers.now.head ∷ fibers.now.others.now) fibers.now.words.now) }
{
    let count = fibers.others.len() + 1;
    let mut rows = Vec::new(alloc);
    rows.resize(count, 0)?;
    let mut sums = Vec::new(alloc);
    sums.resize(count, 0)?;
    with_monoid!(monoid, |own| write_sums(own, fibers, &mut rows, &mut sums));
    Ok((rows, sums))
}

/// Writes the outer index of each fiber, and the sum of its words.
#[inline(always)]
fn write_sums(monoid: Monoid, fibers: &FlatFibers<'_>, rows: &mut [u64], sums: &mut [u64])
    requires left { AreLeft fibers.now.from fibers.now.head fibers.now.others.now fibers.now.inner.now
        fibers.now.words.now }
    requires some { 0 < length fibers.now.inner.now }
    requires rows { length rows.old ≡ length fibers.now.others.now + 1 }
    requires sums { length sums.old ≡ length fibers.now.others.now + 1 }
    ensures rows { rows.new ≡ map (λ r. r.outer) (fibers.now.head ∷ fibers.now.others.now) }
    ensures sums { sums.new ≡ sums_of monoid.kind monoid.op.domain fibers.now.from
        (fibers.now.head ∷ fibers.now.others.now) fibers.now.words.now }
{
    let mut start = 0;
    for at in 0..rows.len() {
        let FiberEnd { outer, end } = fibers.fiber(at);
        let past = end - fibers.from;
        rows[at] = outer;
        sums[at] = sum_row(monoid, &fibers.words[start..past]);
        start = past;
    }
}

/// The words combined in order from the monoid's identity. Rows are short, so it takes them one by one.
#[inline(always)]
fn sum_row(monoid: Monoid, words: &[u64]) -> u64
    ensures { result ≡ fold_of monoid.kind monoid.op.domain words.now }
{
    let mut sum = monoid.identity();
    for &word in words {
        sum = monoid.op.eval(sum, word);
    }
    sum
}

/// The sum of all entries of a store by a monoid, the identity where there is none (`GrB_reduce` to a
/// scalar). It takes no memory.
pub fn reduce_all(a: &Store, monoid: Monoid) -> u64
    ensures { result ≡ fold_of monoid.kind monoid.op.domain
        (all_words a.now.rows a.now.cols (content_of a.now)) }
{
    reduce_all_by(&OneThread, a, monoid)
}

/// The same sum, where `folder` sums the words of lists: several threads take stacks of their own.
pub fn reduce_all_by<F: WordFolder>(folder: &F, a: &Store, monoid: Monoid) -> u64
    ensures { result ≡ fold_of monoid.kind monoid.op.domain
        (all_words a.now.rows a.now.cols (content_of a.now)) }
{
    match a.form() {
        Form::Sparse(lists) => folder.fold(monoid, lists.words()),
        Form::Bitmap(bitmap) => {
            prove_eq!(bitmap.rows(), a.rows());
            bitmap.fold(monoid)
        }
        Form::Blocks(blocks) => folder.fold_parts(monoid, blocks.parts()),
    }
}
