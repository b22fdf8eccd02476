//! Index operators over the entries of fibers.
ghost use Rattle.std.specs.Prelude.{◌≡◌, length, IfOk};
ghost use Rattle.elementwise.specs.Mapped.{answer_by, as_they_lie, mapped};
ghost use Rattle.lanes.specs.Lists.{zip_with};
ghost use Rattle.store.specs.Fibers.{AreFlat, entries_from, entries_in};

use algebra::IndexOp;
use lanes::with_index;
use model::NoMemory;
use std::alloc::Global;
use store::{FiberEnd, FiberLists, Fibers};

/// The entries of fibers with what an index operator gives for each, with the word `s` as its scalar, in
/// memory of their own. Of a column the row is the inner index.
pub(crate) fn index_fibers(
    alloc: Global,
    fibers: &Fibers<'_>,
    op: IndexOp,
    s: u64,
    is_column: bool,
) -> Result<FiberLists, NoMemory>
    ensures flat { IfOk result (λ lists. AreFlat lists.ends.items lists.inner.items lists.words.items) }
    ensures entries { IfOk result (λ lists. entries_in lists
        ≡ mapped (as_they_lie is_column (answer_by op s)) fibers.now.entries) }
{
    let (ends, inner) = fibers.copy_places(alloc)?;
    let words = answers(alloc, op, s, is_column, &ends, &inner, fibers.words())?;
    Ok(FiberLists { ends, inner, words })
}

/// What the operator gives for each entry of fibers.
fn answers(
    alloc: Global,
    op: IndexOp,
    s: u64,
    is_column: bool,
    ends: &[FiberEnd],
    inner: &[u64],
    words: &[u64],
) -> Result<Vec<u64>, NoMemory>
    requires { AreFlat ends.now inner.now words.now }
    ensures length { IfOk result (λ made. length made.items ≡ length words.now) }
    ensures entries { IfOk result (λ made. entries_from 0 ends.now inner.now made.items
        ≡ mapped (as_they_lie is_column (answer_by op s)) (entries_from 0 ends.now inner.now words.now)) }
{
    let mut made = Vec::from_slice(alloc, words)?;
    write_answers(op, s, is_column, ends, inner, &mut made);
    Ok(made)
}

/// Makes each word what the operator gives for its entry.
fn write_answers(
    op: IndexOp,
    s: u64,
    is_column: bool,
    ends: &[FiberEnd],
    inner: &[u64],
    words: &mut [u64],
)
    requires { AreFlat ends.now inner.now words.old }
    ensures length { length words.new ≡ length words.old }
    ensures entries { entries_from 0 ends.now inner.now words.new
        ≡ mapped (as_they_lie is_column (answer_by op s)) (entries_from 0 ends.now inner.now words.old) }
{
    with_index!(
        op,
        |own| write_fibers(own, s, is_column, ends, inner, words)
    )
}

/// What `write_answers` makes, by one operator of its arms.
#[inline(always)]
fn write_fibers(
    op: IndexOp,
    s: u64,
    is_column: bool,
    ends: &[FiberEnd],
    inner: &[u64],
    words: &mut [u64],
)
    requires { AreFlat ends.now inner.now words.old }
    ensures length { length words.new ≡ length words.old }
    ensures entries { entries_from 0 ends.now inner.now words.new
        ≡ mapped (as_they_lie is_column (answer_by op s)) (entries_from 0 ends.now inner.now words.old) }
{
    let mut start = 0;
    for at in 0..ends.len() {
        let FiberEnd { outer, end } = ends[at];
        write_fiber(
            op,
            s,
            is_column,
            outer,
            &inner[start..end],
            &mut words[start..end],
        );
        start = end;
    }
}

/// Makes each word of a fiber what the operator gives for its entry.
#[inline(always)]
fn write_fiber(op: IndexOp, s: u64, is_column: bool, outer: u64, inner: &[u64], words: &mut [u64])
    requires { length inner.now ≡ length words.old }
    ensures { words.new ≡ zip_with (as_they_lie is_column (answer_by op s) outer) inner.now words.old }
{
    for k in 0..words.len() {
        words[k] = answer(op, s, is_column, outer, inner[k], words[k]);
    }
}

/// What the operator gives for an entry as it lies.
#[inline(always)]
fn answer(op: IndexOp, s: u64, is_column: bool, outer: u64, index: u64, word: u64) -> u64
    ensures { result ≡ as_they_lie is_column (answer_by op s) outer index word }
{
    if is_column {
        op.eval(word, index, outer, s)
    } else {
        op.eval(word, outer, index, s)
    }
}
