//! Rows of a block put at lists that name few rows of a store: those between are copied as they lie.
ghost use Rattle.std.specs.Prelude.{◌≡◌, ◌<◌, ◌≤◌, ℕ, None, if◌then◌else◌, is_some, false, true, IfOk, IfSome};
ghost use Rattle.std.specs.List.{All};
ghost use Rattle.std.specs.List.Sorted.{IsNonDecreasing};
ghost use Rattle.model.specs.Indices.{Indices, place_in};
ghost use Rattle.model.specs.Object.{Content};
ghost use Rattle.model.specs.Regions.{is_listed};
ghost use Rattle.store.specs.Stored.{block_content, content_of};
ghost use Rattle.shapes.specs.Lists.{IsPartIn, with_rows};
ghost use Rattle.shapes.specs.Named.{IsNamed, Names};
ghost use Rattle.shapes.specs.Sides.{one_side};

use crate::putting::{Named, keep_row};
use crate::rows::find_row;
use masks::{Joining, append_rows, join_rows};
use model::NoMemory;
use std::alloc::Global;
use std::ops::Range;
use store::{FiberLists, Row, RowBlock, Sparse};

// A row that is named takes some six binary searches, by estimate as long as to look up and put some ten short rows.
const MANY_MORE: usize = 16;

/// The rows in a range that lists name, in rising order, where these are so few beside a store's that it pays to
/// copy those between them. One column lies as one fiber, beside which a row is never few.
pub(crate) fn few_named<'a>(a: &Sparse, named: &Named<'a>, range: Range<u64>) -> Option<&'a [u64]>
    ensures rises { IfSome result (λ listed. IsNonDecreasing listed.now) }
    ensures part { IfSome result (λ listed. (rows cols : Indices) (size : ℕ) → IsNamed rows cols named.now
        → IsPartIn range.start range.end (λ i. is_some (place_in size rows i)) listed.now) }
{
    let Some(rows) = &named.rows else {
        return None;
    };
    let listed = rows.part(range.start..range.end);
    let many = a.fibers_in(range).flat().others.len();
    if listed.len() > many / MANY_MORE {
        return None;
    }
    Some(listed)
}

/// The rows in a range of the entries that are inside the positions that lists name, and of a store's entries outside
/// of them, by the rows that they name there. Only these are joined, and the store's others are copied as they lie.
pub(crate) fn put_few(
    alloc: Global,
    old: &Sparse,
    inside: &Sparse,
    named: &Named<'_>,
    listed: &[u64],
    range: Range<u64>,
) -> Result<RowBlock, NoMemory>
    requires cols { inside.now.cols ≡ old.now.cols }
    requires range { range.start ≤ range.end }
    requires named { Names named.now }
    requires rises { IsNonDecreasing listed.now }
    requires part { (rows cols : Indices) (size : ℕ) → IsNamed rows cols named.now
        → IsPartIn range.start range.end (λ i. is_some (place_in size rows i)) listed.now }
    ensures first { IfOk result (λ block. block.first ≡ range.start) }
    ensures past { IfOk result (λ block. block.past ≡ range.end) }
    ensures cols { IfOk result (λ block. block.cols ≡ old.now.cols) }
    ensures words { IfOk result (λ block. (rows cols : Indices) (c : Content) (size i j : ℕ)
        → IsNamed rows cols named.now → range.end ≤ size → range.start ≤ i → i < range.end
        → content_of inside.now i j ≡ one_side true size old.now.cols rows cols c i j
        → block_content block i j
        ≡ (if is_listed size old.now.cols rows cols i j then c i j else content_of old.now i j)) }
{
    let (first, past) = (range.start, range.end);
    let outside = keep_named(alloc, old, named, listed, first..past)?;
    let outside = Sparse::from_block(past, outside);
    let mixed = join_rows(alloc, &outside, inside, Joining::Right, first..past)?;
    let mixed = Sparse::from_block(past, mixed);
    replace_rows(alloc, old, &mixed, listed, range)
}

/// What the rows in a range that lists name have of a store's entries outside the positions that they name, and
/// nothing in the rows between.
fn keep_named(
    alloc: Global,
    a: &Sparse,
    named: &Named<'_>,
    listed: &[u64],
    range: Range<u64>,
) -> Result<RowBlock, NoMemory>
    requires range { range.start ≤ range.end }
    requires named { Names named.now }
    requires rises { IsNonDecreasing listed.now }
    requires inside { All (λ x. (range.start ≤ x) × (x < range.end)) listed.now }
    ensures first { IfOk result (λ block. block.first ≡ range.start) }
    ensures past { IfOk result (λ block. block.past ≡ range.end) }
    ensures cols { IfOk result (λ block. block.cols ≡ a.now.cols) }
    ensures words { IfOk result (λ block. (rows cols : Indices) (size i j : ℕ) → IsNamed rows cols named.now
        → range.end ≤ size → range.start ≤ i → i < range.end → block_content block i j
        ≡ with_rows listed.now (one_side false size a.now.cols rows cols (content_of a.now)) (λ i j. None) i j) }
{
    let mut lists = FiberLists::new(alloc);
    let mut row = range.start;
    for index in listed {
        let index = *index;
        // An index that is listed once more has its row.
        if row <= index {
            let (cols, words) = find_row(a, index);
            keep_row(&mut lists, Row { index, cols, words }, named, false)?;
            row = index + 1;
        }
    }
    Ok(RowBlock::of_rows(range.start, range.end, a.cols(), lists))
}

/// The rows in a range of a store, but those that a list names of another. What lies between these is copied at once.
fn replace_rows(
    alloc: Global,
    old: &Sparse,
    new: &Sparse,
    listed: &[u64],
    range: Range<u64>,
) -> Result<RowBlock, NoMemory>
    requires cols { new.now.cols ≡ old.now.cols }
    requires range { range.start ≤ range.end }
    requires rises { IsNonDecreasing listed.now }
    requires inside { All (λ x. (range.start ≤ x) × (x < range.end)) listed.now }
    ensures first { IfOk result (λ block. block.first ≡ range.start) }
    ensures past { IfOk result (λ block. block.past ≡ range.end) }
    ensures cols { IfOk result (λ block. block.cols ≡ old.now.cols) }
    ensures words { IfOk result (λ block. (i j : ℕ) → range.start ≤ i → i < range.end → block_content block i j
        ≡ with_rows listed.now (content_of new.now) (content_of old.now) i j) }
{
    let (first, past) = (range.start, range.end);
    let count = old.fibers_in(first..past).len() + new.fibers_in(range).len();
    let mut lists = FiberLists::with_capacity(alloc, count)?;
    let (mut near_old, mut near_new) = (0, 0);
    let mut row = first;
    for index in listed {
        let index = *index;
        // An index that is listed once more has its row.
        if row <= index {
            append_rows(&mut lists, old, row..index, &mut near_old)?;
            append_rows(&mut lists, new, index..index + 1, &mut near_new)?;
            row = index + 1;
        }
    }
    append_rows(&mut lists, old, row..past, &mut near_old)?;
    Ok(RowBlock::of_fibers(first, past, old.cols(), lists))
}
