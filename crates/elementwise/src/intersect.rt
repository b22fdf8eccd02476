//! Intersections of stores.
ghost use Rattle.std.specs.Prelude.{◌≡◌, ℕ, ◌<◌, ◌≤◌, length, take, IfOk, OnOk};
ghost use Rattle.algebra.specs.Operators.{eval_of};
ghost use Rattle.model.specs.ElementWise.{of_both};
ghost use Rattle.store.specs.Fibers.{AreFlat, entries_in};
ghost use Rattle.store.specs.Parts.{HasPart, HasRows};
ghost use Rattle.store.specs.Stored.{AreIn, along, block_content, content_of};
ghost use Rattle.elementwise.specs.Meets.{HasMeet, met_content};

use crate::pairs::{Pairs, pair_fibers};
use algebra::BinaryOp;
use lanes::zip_words;
use masks::{Joining, are_alike, join_alike};
use model::NoMemory;
use std::alloc::Global;
use std::ops::Range;
use store::{FiberLists, Fibers, RowBlock, Sparse};

// About how many entries of each side are looked at together. What that takes stays in the cache.
const PART: usize = 1024;

/// The rows in a range of the intersection of two stores of as many columns (`GrB_eWiseMult`): what the
/// operator gives at each position that both have. It takes time for the entries of both in these rows, and
/// beside the result memory for a part of some rows, or for the longest row.
pub fn intersect_rows(
    alloc: Global,
    a: &Sparse,
    b: &Sparse,
    op: BinaryOp,
    range: Range<u64>,
) -> Result<RowBlock, NoMemory>
    requires cols { a.now.cols ≡ b.now.cols }
    requires range { range.start ≤ range.end }
    ensures first { IfOk result (λ block. block.first ≡ range.start) }
    ensures past { IfOk result (λ block. block.past ≡ range.end) }
    ensures cols { IfOk result (λ block. block.cols ≡ a.now.cols) }
    ensures words { IfOk result (λ block. (i j : ℕ) → range.start ≤ i → i < range.end → block_content block i j
        ≡ of_both (eval_of op.kind op.domain) (content_of a.now i j) (content_of b.now i j)) }
{
    let (first, past) = (range.start, range.end);
    let lists = intersect_lists(alloc, a, b, op, first..past)?;
    Ok(RowBlock::of_fibers(first, past, a.cols(), lists))
}

/// The lists of the intersection of the rows in a range.
fn intersect_lists(
    alloc: Global,
    a: &Sparse,
    b: &Sparse,
    op: BinaryOp,
    range: Range<u64>,
) -> Result<FiberLists, NoMemory>
    requires cols { a.now.cols ≡ b.now.cols }
    requires range { range.start ≤ range.end }
    ensures { IfOk result (HasRows (met_content op (content_of a.now) (content_of b.now))
        range.start range.end a.now.cols) }
{
    let lefts = a.fibers_in(range.start..range.end);
    let rights = b.fibers_in(range.start..range.end);
    if are_alike(&lefts, &rights) {
        return join_alike(alloc, &lefts, &rights, Joining::Accumulate(op));
    }
    if lefts.len().max(rights.len()) > PART {
        let room = lefts.len().min(rights.len());
        return intersect_parts(alloc, a, b, op, range, room);
    }
    let mut pairs = Pairs::new(alloc);
    let count = intersect_fibers(&mut pairs, lefts, rights, op)?;
    Ok(pairs.into_lists(count))
}

/// The same, part by part. There is room for so many entries from the start, so that none is moved; what isn't used
/// is let go.
fn intersect_parts(
    alloc: Global,
    a: &Sparse,
    b: &Sparse,
    op: BinaryOp,
    range: Range<u64>,
    room: usize,
) -> Result<FiberLists, NoMemory>
    requires cols { a.now.cols ≡ b.now.cols }
    requires range { range.start ≤ range.end }
    ensures { IfOk result (λ lists. HasRows (met_content op (content_of a.now) (content_of b.now))
        range.start range.end a.now.cols lists) }
{
    let mut lists = FiberLists::with_capacity(alloc, room)?;
    let mut pairs = Pairs::new(alloc);
    let (mut row, past) = (range.start, range.end);
    while row < past {
        let next = a.part_end(row..past, PART).min(b.part_end(row..past, PART));
        intersect_part(&mut lists, &mut pairs, a, b, op, row..next)?;
        row = next;
    }
    lists.shrink_to_fit();
    Ok(lists)
}

/// Puts the intersection of the rows in a range behind those in the lists.
fn intersect_part(
    lists: &mut FiberLists,
    pairs: &mut Pairs,
    a: &Sparse,
    b: &Sparse,
    op: BinaryOp,
    range: Range<u64>,
) -> Result<(), NoMemory>
    requires cols { a.now.cols ≡ b.now.cols }
    requires flat { AreFlat lists.old.ends.items lists.old.inner.items lists.old.words.items }
    requires front { AreIn 0 range.start a.now.cols (along a.now.cols (entries_in lists.old)) }
    ensures { OnOk result (HasPart (met_content op (content_of a.now) (content_of b.now))
        range.start range.end a.now.cols lists.old lists.new) }
{
    let (first, past) = (range.start, range.end);
    let (lefts, rights) = (a.fibers_in(first..past), b.fibers_in(first..past));
    let count = intersect_fibers(pairs, lefts, rights, op)?;
    let FiberLists { ends, inner, words } = &pairs.lists;
    lists.append(ends, &inner[..count], words)
}

/// Makes the first pairs the intersection of two sides' fibers, and answers how many there are.
fn intersect_fibers(
    pairs: &mut Pairs,
    left: Fibers<'_>,
    right: Fibers<'_>,
    op: BinaryOp,
) -> Result<usize, NoMemory>
    ensures bound { IfOk result (λ count. count ≤ length pairs.new.lists.inner.items) }
    ensures met { IfOk result (λ count. HasMeet op left.entry.entries right.entry.entries
        pairs.new.lists.ends.items (take count pairs.new.lists.inner.items) pairs.new.lists.words.items) }
{
    let most = left.len();
    pairs.make_room(most)?;
    let Pairs { lists, sources } = pairs;
    let (lefts, rights) = sources[..2 * most].split_at_mut(most);
    let FiberLists { ends, inner, words } = lists;
    let count = pair_fibers(left, right, ends, inner, lefts, rights)?;
    words.resize(count, 0)?;
    zip_words(op, &lefts[..count], &rights[..count], words);
    Ok(count)
}
