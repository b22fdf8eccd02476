//! Rows that one side of a join has alone, where the other has few: they are copied as they lie.
ghost use Rattle.std.specs.Prelude.{◌≡◌, ◌≢◌, ◌<◌, ◌≤◌, ℕ, None, IfOk, IfSome};
ghost use Rattle.store.specs.Fibers.{AreFlat, entries_in};
ghost use Rattle.store.specs.Parts.{HasPart};
ghost use Rattle.store.specs.Stored.{AreIn, along, content_of};
ghost use Rattle.masks.specs.Joins.{alone_of, joined};

use crate::append::append_rows;
use crate::full::Side;
use crate::join::{Joining, keeps_alone};
use model::NoMemory;
use std::ops::Range;
use store::{FiberLists, Fibers, Sparse};

// A row that both may have takes a binary search among the rows between it and the one before, by estimate as long as
// to merge some ten entries. With so many rows of the other side for each of them, as many are copied and not merged,
// even where rows are short.
const MANY_MORE: usize = 16;

/// Hints for `Sparse::fibers_near`, of the two stores of a join.
#[derive(Clone, Copy)]
pub(crate) struct Hints {
    pub(crate) left: usize,
    pub(crate) right: usize,
}

/// The side that has so few rows beside the other that it pays to copy those between them; of stores with rows of
/// more than one column, where the words of one side alone stay as they are.
pub(crate) fn few_side(
    left: &Sparse,
    lefts: &Fibers<'_>,
    rights: &Fibers<'_>,
    by: Joining,
) -> Option<Side>
    ensures rows { IfSome result (λ few. left.now.cols ≢ 1) }
    ensures alone { IfSome result (λ few. (word : ℕ) → alone_of by word ≡ word) }
{
    if left.cols() == 1 || !keeps_alone(by) {
        return None;
    }
    let (a, b) = (count_fibers(lefts), count_fibers(rights));
    if a <= b / MANY_MORE {
        return Some(Side::Left);
    }
    if b <= a / MANY_MORE {
        return Some(Side::Right);
    }
    None
}

/// How many fibers are left on a walk that has entries.
fn count_fibers(fibers: &Fibers<'_>) -> usize {
    fibers.flat().others.len() + 1
}

/// Puts the join of the rows from the first in a range up to the next one that the side with few has behind those
/// in the lists. It answers that row, or the range's end.
pub(crate) fn copy_between(
    lists: &mut FiberLists,
    left: &Sparse,
    right: &Sparse,
    by: Joining,
    few: Side,
    range: Range<u64>,
    hints: &mut Hints,
) -> Result<u64, NoMemory>
    requires cols { left.now.cols ≡ right.now.cols }
    requires rows { left.now.cols ≢ 1 }
    requires alone { (word : ℕ) → alone_of by word ≡ word }
    requires range { range.start ≤ range.end }
    requires flat { AreFlat lists.old.ends.items lists.old.inner.items lists.old.words.items }
    requires front { AreIn 0 range.start left.now.cols (along left.now.cols (entries_in lists.old)) }
    ensures low { IfOk result (λ next. range.start ≤ next) }
    ensures high { IfOk result (λ next. next ≤ range.end) }
    ensures part { IfOk result (λ next. HasPart (joined by (content_of left.now) (content_of right.now))
        range.start next left.now.cols lists.old lists.new) }
{
    let Hints {
        left: near_left,
        right: near_right,
    } = hints;
    match few {
        Side::Left => copy_up_to(lists, right, near_right, left, *near_left, range),
        Side::Right => copy_up_to(lists, left, near_left, right, *near_right, range),
    }
}

/// Puts the rows of a store from the first in a range up to the next one that another store has behind those in the
/// lists. It answers that row, or the range's end.
fn copy_up_to(
    lists: &mut FiberLists,
    many: &Sparse,
    near_many: &mut usize,
    few: &Sparse,
    near_few: usize,
    range: Range<u64>,
) -> Result<u64, NoMemory>
    requires rows { few.now.cols ≢ 1 }
    requires range { range.start ≤ range.end }
    requires flat { AreFlat lists.old.ends.items lists.old.inner.items lists.old.words.items }
    requires front { AreIn 0 range.start many.now.cols (along many.now.cols (entries_in lists.old)) }
    ensures low { IfOk result (λ next. range.start ≤ next) }
    ensures high { IfOk result (λ next. next ≤ range.end) }
    ensures none { IfOk result (λ next. (i j : ℕ) → range.start ≤ i → i < next → content_of few.now i j ≡ None) }
    ensures there { IfOk result (λ next. next < range.end → ((j : ℕ) → content_of few.now next j ≡ None) → ⊥) }
    ensures part { IfOk result (λ next.
        HasPart (content_of many.now) range.start next many.now.cols lists.old lists.new) }
{
    let (first, past) = (range.start, range.end);
    let next = next_row(few, first, past, near_few);
    append_rows(lists, many, first..next, near_many)?;
    Ok(next)
}

/// The first row from a row on, up to before another, in which a store has entries, or that other.
fn next_row(store: &Sparse, first: u64, past: u64, hint: usize) -> u64
    requires rows { store.now.cols ≢ 1 }
    requires range { first ≤ past }
    ensures low { first ≤ result }
    ensures high { result ≤ past }
    ensures none { (i j : ℕ) → first ≤ i → i < result → content_of store.now i j ≡ None }
    ensures there { result < past → ((j : ℕ) → content_of store.now result j ≡ None) → ⊥ }
{
    // The end of such a range takes no search.
    let (fibers, _) = store.fibers_near(first..u64::MAX, hint);
    fibers.outer().min(past)
}
