//! Joins of stores: where both have a word what is made of both, and where one has, its word.
ghost use Rattle.std.specs.Prelude.{◌≡◌, ◌≢◌, ℕ, ◌<◌, ◌≤◌, ◌==◌, if◌then◌else◌, length, slice_index, take, true};
ghost use Rattle.std.specs.Prelude.{IfOk, IfSome, OnOk};
ghost use Rattle.std.specs.Option.{option_map};
ghost use Rattle.model.specs.ElementWise.{of_either};
ghost use Rattle.store.specs.Fibers.{AreFlat, entries_in};
ghost use Rattle.store.specs.Parts.{HasPart, HasRows};
ghost use Rattle.store.specs.Stored.{AreIn, along, block_content, content_of};
ghost use Rattle.masks.specs.Joins.{AreJoined, HasJoin, alone_of, both_of, joined};

use crate::alike::{are_alike, join_alike};
use crate::few::{has_few, join_few};
use crate::full::{Side, full_side, join_full};
use crate::merge::{Places, merge_fibers, most_places};
use crate::pair::pair_of;
use crate::sparse::{Hints, copy_between, few_side};
use algebra::BinaryOp;
use lanes::{unite_words, zip_words};
use model::NoMemory;
use std::alloc::Global;
use std::ops::Range;
use store::{FiberLists, Fibers, RowBlock, Sparse};

/// How the words of two stores at a position are joined.
#[derive(Clone, Copy)]
pub enum Joining {
    /// Where both are there the right one.
    Right,
    /// Where both are there what the operator gives; one alone as it is (an accumulator).
    Accumulate(BinaryOp),
    /// Where both are there what the operator gives; one alone cast from its domain to that of its
    /// answer (`GrB_eWiseAdd`).
    Unite(BinaryOp),
}

// About how many entries of each side are joined at once. What that takes stays in the cache.
const PART: usize = 1024;

/// The rows in a range of the join of two stores of as many columns. It takes time for the entries of both in
/// these rows, and beside the result memory for a part of some rows, or for the longest row.
pub fn join_rows(
    alloc: Global,
    left: &Sparse,
    right: &Sparse,
    by: Joining,
    range: Range<u64>,
) -> Result<RowBlock, NoMemory>
    requires cols { left.now.cols ≡ right.now.cols }
    requires range { range.start ≤ range.end }
    ensures first { IfOk result (λ block. block.first ≡ range.start) }
    ensures past { IfOk result (λ block. block.past ≡ range.end) }
    ensures cols { IfOk result (λ block. block.cols ≡ left.now.cols) }
    ensures words { IfOk result (λ block. (i j : ℕ) → range.start ≤ i → i < range.end → block_content block i j
        ≡ of_either (alone_of by) (alone_of by) (both_of by) (content_of left.now i j) (content_of right.now i j)) }
{
    let (first, past) = (range.start, range.end);
    let lists = join_lists(alloc, left, right, by, first..past)?;
    Ok(RowBlock::of_fibers(first, past, left.cols(), lists))
}

/// The lists of the join of the rows in a range.
fn join_lists(
    alloc: Global,
    left: &Sparse,
    right: &Sparse,
    by: Joining,
    range: Range<u64>,
) -> Result<FiberLists, NoMemory>
    requires cols { left.now.cols ≡ right.now.cols }
    requires range { range.start ≤ range.end }
    ensures { IfOk result (HasRows (joined by (content_of left.now) (content_of right.now))
        range.start range.end left.now.cols) }
{
    let lefts = left.fibers_in(range.start..range.end);
    let rights = right.fibers_in(range.start..range.end);
    if rights.len() == 0 {
        return copy_alone(alloc, left, by, range);
    }
    if lefts.len() == 0 {
        return copy_alone(alloc, right, by, range);
    }
    let room = lefts.len() + rights.len();
    let few = few_side(left, &lefts, &rights, by);
    if let Some(lists) = join_whole(alloc, lefts, rights, by)? {
        return Ok(lists);
    }
    match few {
        Some(few) => join_between(alloc, left, right, by, few, range, room),
        None => join_parts(alloc, left, right, by, range, room),
    }
}

/// The lists of the rows in a range of one side that has entries alone.
fn copy_alone(
    alloc: Global,
    side: &Sparse,
    by: Joining,
    range: Range<u64>,
) -> Result<FiberLists, NoMemory>
    ensures { IfOk result (HasRows (λ i j. option_map (alone_of by) (content_of side.now i j))
        range.start range.end side.now.cols) }
{
    let mut rows = side.copy_rows(alloc, range)?;
    if let Joining::Unite(op) = by {
        rows.cast(op.domain, op.answer());
    }
    Ok(rows.into_lists())
}

/// The join of two sides' fibers, where it isn't made part by part.
fn join_whole(
    alloc: Global,
    lefts: Fibers<'_>,
    rights: Fibers<'_>,
    by: Joining,
) -> Result<Option<FiberLists>, NoMemory>
    ensures { IfOk result (λ whole. IfSome whole (λ lists. HasJoin by lefts.entry.entries rights.entry.entries
        lists.ends.items lists.inner.items lists.words.items)) }
{
    if are_alike(&lefts, &rights) {
        return Ok(Some(join_alike(alloc, &lefts, &rights, by)?));
    }
    if let Some(lists) = join_pair(alloc, &lefts, &rights, by)? {
        return Ok(Some(lists));
    }
    if lefts.len().max(rights.len()) > PART {
        return Ok(None);
    }
    let mut places = Places::new(alloc);
    let count = join_fibers(&mut places, lefts, rights, by)?;
    Ok(Some(places.into_lists(count)))
}

/// The join of two sides, one of which has an entry in each place, or few, where a word that one side has alone stays
/// as it is.
fn join_pair(
    alloc: Global,
    lefts: &Fibers<'_>,
    rights: &Fibers<'_>,
    by: Joining,
) -> Result<Option<FiberLists>, NoMemory>
    ensures { IfOk result (λ whole. IfSome whole (λ lists. HasJoin by lefts.now.entries rights.now.entries
        lists.ends.items lists.inner.items lists.words.items)) }
{
    if !keeps_alone(by) {
        return Ok(None);
    }
    let Some(pair) = pair_of(lefts, rights) else {
        return Ok(None);
    };
    if let Some(side) = full_side(pair) {
        return Ok(Some(join_full(alloc, pair, side, by)?));
    }
    if has_few(pair) {
        return Ok(Some(join_few(alloc, pair, by)?));
    }
    Ok(None)
}

/// Whether the word of an entry that one side has alone stays as it is.
pub(crate) fn keeps_alone(by: Joining) -> bool
    ensures { result ≡ true → (word : ℕ) → alone_of by word ≡ word }
{
    match by {
        Joining::Right | Joining::Accumulate(_) => true,
        Joining::Unite(_) => false,
    }
}

/// The same as `join_lists`, part by part. There is room for so many entries from the
/// start, so that none is moved; what isn't used is let go.
fn join_parts(
    alloc: Global,
    left: &Sparse,
    right: &Sparse,
    by: Joining,
    range: Range<u64>,
    room: usize,
) -> Result<FiberLists, NoMemory>
    requires cols { left.now.cols ≡ right.now.cols }
    requires range { range.start ≤ range.end }
    ensures { IfOk result (λ lists. HasRows (joined by (content_of left.now) (content_of right.now))
        range.start range.end left.now.cols lists) }
{
    let mut lists = FiberLists::with_capacity(alloc, room)?;
    let mut places = Places::new(alloc);
    let mut hints = Hints { left: 0, right: 0 };
    let (mut row, past) = (range.start, range.end);
    while row < past {
        let next = left
            .part_end(row..past, PART)
            .min(right.part_end(row..past, PART));
        let part = row..next;
        join_part(&mut lists, &mut places, left, right, by, part, &mut hints)?;
        row = next;
    }
    lists.shrink_to_fit();
    Ok(lists)
}

/// The same as `join_lists`, where one side has few rows: what the other has between them is copied, and only
/// these are joined. There is room for so many entries from the start.
fn join_between(
    alloc: Global,
    left: &Sparse,
    right: &Sparse,
    by: Joining,
    few: Side,
    range: Range<u64>,
    room: usize,
) -> Result<FiberLists, NoMemory>
    requires cols { left.now.cols ≡ right.now.cols }
    requires rows { left.now.cols ≢ 1 }
    requires alone { (word : ℕ) → alone_of by word ≡ word }
    requires range { range.start ≤ range.end }
    ensures { IfOk result (λ lists. HasRows (joined by (content_of left.now) (content_of right.now))
        range.start range.end left.now.cols lists) }
{
    let mut lists = FiberLists::with_capacity(alloc, room)?;
    let mut places = Places::new(alloc);
    let mut hints = Hints { left: 0, right: 0 };
    let (mut row, past) = (range.start, range.end);
    while row < past {
        let next = copy_between(&mut lists, left, right, by, few, row..past, &mut hints)?;
        row = next.saturating_add(1).min(past);
        let part = next..row;
        join_part(&mut lists, &mut places, left, right, by, part, &mut hints)?;
    }
    lists.shrink_to_fit();
    Ok(lists)
}

/// Puts the join of the rows in a range behind those in the lists.
fn join_part(
    lists: &mut FiberLists,
    places: &mut Places,
    left: &Sparse,
    right: &Sparse,
    by: Joining,
    range: Range<u64>,
    hints: &mut Hints,
) -> Result<(), NoMemory>
    requires cols { left.now.cols ≡ right.now.cols }
    requires flat { AreFlat lists.old.ends.items lists.old.inner.items lists.old.words.items }
    requires front { AreIn 0 range.start left.now.cols (along left.now.cols (entries_in lists.old)) }
    ensures { OnOk result (HasPart (joined by (content_of left.now) (content_of right.now))
        range.start range.end left.now.cols lists.old lists.new) }
{
    let (first, past) = (range.start, range.end);
    let (lefts, near_left) = left.fibers_near(first..past, hints.left);
    let (rights, near_right) = right.fibers_near(first..past, hints.right);
    *hints = Hints {
        left: near_left,
        right: near_right,
    };
    let count = join_fibers(places, lefts, rights, by)?;
    let FiberLists { ends, inner, words } = &places.lists;
    lists.append(ends, &inner[..count], words)
}

/// Makes the first places the join of two sides' fibers, and answers how many there are.
fn join_fibers(
    places: &mut Places,
    left: Fibers<'_>,
    right: Fibers<'_>,
    by: Joining,
) -> Result<usize, NoMemory>
    ensures bound { IfOk result (λ count. count ≤ length places.new.lists.inner.items) }
    ensures joined { IfOk result (λ count. HasJoin by left.entry.entries right.entry.entries
        places.new.lists.ends.items (take count places.new.lists.inner.items) places.new.lists.words.items) }
{
    let most = most_places(&left, &right);
    places.make_room(most)?;
    let Places { lists, sources } = places;
    let (lefts, others) = sources[..3 * most].split_at_mut(most);
    let (rights, sides) = others.split_at_mut(most);
    let FiberLists { ends, inner, words } = lists;
    let count = merge_fibers(left, right, ends, inner, lefts, rights, sides)?;
    words.resize(count, 0)?;
    join_words(
        by,
        &sides[..count],
        &lefts[..count],
        &rights[..count],
        words,
    );
    Ok(count)
}

/// Makes each word that of the place of a merge.
fn join_words(by: Joining, sides: &[u64], lefts: &[u64], rights: &[u64], words: &mut [u64])
    requires sides { length sides.now ≡ length words.old }
    requires lefts { length lefts.now ≡ length words.old }
    requires rights { length rights.now ≡ length words.old }
    ensures length { length words.new ≡ length words.old }
    ensures joined { AreJoined (alone_of by) (both_of by) sides.now lefts.now rights.now words.new }
{
    match by {
        Joining::Right => words.copy_from_slice(rights),
        Joining::Accumulate(op) => zip_words(op, lefts, rights, words),
        Joining::Unite(op) => return unite_words(op, sides, lefts, rights, words),
    }
    put_alone(sides, lefts, rights, words);
}

/// Puts the word of each place that one side alone has in place of that of both.
#[inline(never)]
fn put_alone(sides: &[u64], lefts: &[u64], rights: &[u64], words: &mut [u64])
    requires sides { length sides.now ≡ length words.old }
    requires lefts { length lefts.now ≡ length words.old }
    requires rights { length rights.now ≡ length words.old }
    ensures length { length words.new ≡ length words.old }
    ensures words { (k : ℕ) → k < length words.old → slice_index words.new k
        ≡ (if slice_index sides.now k == 1 then slice_index lefts.now k
        else if slice_index sides.now k == 2 then slice_index rights.now k
        else slice_index words.old k) }
{
    for k in 0..words.len() {
        words[k] = choose(sides[k], lefts[k], rights[k], words[k]);
    }
}

/// The left word where the side is 1, the right one where it is 2, and else that of both.
#[inline(always)]
fn choose(side: u64, left: u64, right: u64, both: u64) -> u64
    ensures { result ≡ (if side == 1 then left else if side == 2 then right else both) }
{
    // In this form it is compiled without a branch.
    let alone = if side == 1 { left } else { right };
    if side == 1 || side == 2 { alone } else { both }
}
