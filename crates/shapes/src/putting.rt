//! Rows of a block put into a store at lists of rows and columns.
ghost use Rattle.std.specs.Prelude.{[], ◌≡◌, ◌<◌, ◌≤◌, ◌↔◌, ℕ, length, IfOk, IsTrue, OnOk, if◌then◌else◌, is_some};
ghost use Rattle.std.specs.Prelude.{true};
ghost use Rattle.model.specs.Indices.{All, Indices, are_below, place_in};
ghost use Rattle.model.specs.Object.{Content};
ghost use Rattle.model.specs.Regions.{is_listed};
ghost use Rattle.store.specs.Stored.{block_content, content_of};
ghost use Rattle.shapes.specs.Named.{AreMembers, IsNamed, Names};
ghost use Rattle.shapes.specs.Rows.{HasRow, HasRowOf, IsRowOf};
ghost use Rattle.shapes.specs.Sides.{HasKept, on_side, one_side};

use crate::few::{few_named, put_few};
use crate::members::Members;
use crate::rows::{put_row, walk_rows};
use masks::{Joining, join_rows};
use model::{IndexList, NoMemory};
use std::alloc::Global;
use std::ops::Range;
use store::{FiberLists, Row, RowBlock, Sparse};

/// The rows of a block at the positions that lists of rows and of columns name, and at the others those
/// of a store. `:` is never written out, and in both lists costs nothing. Else its time is that of the
/// entries of both in these rows, each with a search in both lists at the most. Where few rows are named,
/// the store's others are copied as they lie.
pub fn put_rows(
    alloc: Global,
    old: &Sparse,
    new: RowBlock,
    rows: &IndexList,
    cols: &IndexList,
) -> Result<RowBlock, NoMemory>
    requires rows { are_below old.now.rows rows.now ≡ true }
    requires cols { are_below old.now.cols cols.now ≡ true }
    requires start { new.first ≤ new.past }
    requires end { new.past ≤ old.now.rows }
    requires columns { new.cols ≡ old.now.cols }
    ensures first { IfOk result (λ block. block.first ≡ new.first) }
    ensures past { IfOk result (λ block. block.past ≡ new.past) }
    ensures cols { IfOk result (λ block. block.cols ≡ new.cols) }
    ensures words { IfOk result (λ block. (i j : ℕ) → new.first ≤ i → i < new.past → block_content block i j
        ≡ (if is_listed old.now.rows old.now.cols rows.now cols.now i j
        then block_content new i j
        else content_of old.now i j)) }
{
    if is_all(rows) && is_all(cols) {
        return Ok(put_all(old, new));
    }
    let (first, past) = (new.first(), new.past());
    // Each entry is looked up once in each list.
    let looks = old.fibers_in(first..past).len() + new.fibers().len();
    let named = Named {
        rows: members_of(alloc, rows, looks)?,
        cols: members_of(alloc, cols, looks)?,
    };
    // The block goes before there are other lists, which so lie where it lay.
    let inside = {
        let new = Sparse::from_block(past, new);
        keep_side(alloc, &new, &named, true, first..past)?
    };
    let inside = Sparse::from_block(past, inside);
    if let Some(listed) = few_named(old, &named, first..past) {
        return put_few(alloc, old, &inside, &named, listed, first..past);
    }
    let outside = keep_side(alloc, old, &named, false, first..past)?;
    let outside = Sparse::from_block(past, outside);
    join_rows(alloc, &outside, &inside, Joining::Right, first..past)
}

/// The members of lists of rows and of columns; None for all of them.
#[derive(Drop)]
pub(crate) struct Named<'a> {
    pub(crate) rows: Option<Members<'a>>,
    pub(crate) cols: Option<Members<'a>>,
}

/// The members of a list, for so many looks.
fn members_of<'a>(
    alloc: Global,
    indices: &'a IndexList,
    looks: usize,
) -> Result<Option<Members<'a>>, NoMemory>
    ensures { IfOk result (AreMembers indices.now) }
{
    match indices.sorted() {
        Some(sorted) => Ok(Some(Members::new(alloc, sorted, looks)?)),
        None => Ok(None),
    }
}

/// The rows of a block at all positions.
fn put_all(old: &Sparse, new: RowBlock) -> RowBlock
    requires end { new.past ≤ old.now.rows }
    requires columns { new.cols ≡ old.now.cols }
    ensures first { result.first ≡ new.first }
    ensures past { result.past ≡ new.past }
    ensures cols { result.cols ≡ new.cols }
    ensures words { (i j : ℕ) → i < new.past → block_content result i j
        ≡ (if is_listed old.now.rows old.now.cols All All i j
        then block_content new i j
        else content_of old.now i j) }
{
    // It is said there that neither has an entry outside the columns.
    let _rows = old.rows();
    let _count = new.fibers().len();
    new
}

/// Whether a list is `:`.
fn is_all(indices: &IndexList) -> bool
    ensures { IsTrue result ↔ (indices.now ≡ All) }
{
    match indices.listed() {
        Some(_) => false,
        None => true,
    }
}

/// The rows in a range of a store's entries inside the positions that lists name, or outside of them.
fn keep_side(
    alloc: Global,
    a: &Sparse,
    named: &Named<'_>,
    inside: bool,
    range: Range<u64>,
) -> Result<RowBlock, NoMemory>
    requires range { range.start ≤ range.end }
    requires named { Names named.now }
    ensures first { IfOk result (λ block. block.first ≡ range.start) }
    ensures past { IfOk result (λ block. block.past ≡ range.end) }
    ensures cols { IfOk result (λ block. block.cols ≡ a.now.cols) }
    ensures words { IfOk result (λ block. (rows cols : Indices) (size i j : ℕ) → IsNamed rows cols named.now
        → range.end ≤ size → range.start ≤ i → i < range.end
        → block_content block i j ≡ one_side inside size a.now.cols rows cols (content_of a.now) i j) }
{
    let (first, past) = (range.start, range.end);
    let count = a.fibers_in(first..past).len();
    let mut lists = FiberLists::with_capacity(alloc, count)?;
    let mut rest = walk_rows(a, range);
    while let Some((row, others)) = rest.split_first() {
        keep_row(&mut lists, row, named, inside)?;
        rest = others;
    }
    Ok(RowBlock::of_rows(first, past, a.cols(), lists))
}

/// Puts what a row has on one side behind the rows in the lists.
pub(crate) fn keep_row(
    lists: &mut FiberLists,
    row: Row<'_>,
    named: &Named<'_>,
    inside: bool,
) -> Result<(), NoMemory>
    requires lengths { length row.words.now ≡ length row.cols.now }
    ensures { OnOk result ((rows cols : Indices) (c : Content) (m n : ℕ) → IsNamed rows cols named.now
        → row.entry.index < m → IsRowOf c row.entry.index n row.entry.cols.now row.entry.words.now
        → HasRowOf (one_side inside m n rows cols c) row.entry.index n lists.old lists.new) }
{
    let is_named = names(&named.rows, row.index);
    let Some(members) = &named.cols else {
        return put_if(lists, row, is_on(inside, is_named));
    };
    if !is_named {
        return put_if(lists, row, is_on(inside, false));
    }
    keep_words(lists, row.cols, row.words, members, inside)?;
    lists.close(row.index)
}

/// Puts a row behind the rows in the lists, if it is kept.
fn put_if(lists: &mut FiberLists, row: Row<'_>, is_kept: bool) -> Result<(), NoMemory>
    ensures { OnOk result (HasRow row.entry.index (if is_kept then row.entry.cols.now else [])
        (if is_kept then row.entry.words.now else []) lists.old lists.new) }
{
    if is_kept {
        put_row(lists, row.index, row.cols, row.words)
    } else {
        put_row(lists, row.index, &[], &[])
    }
}

/// Whether a position is on a side, by whether lists name it.
fn is_on(inside: bool, is_named: bool) -> bool
    ensures { result ≡ on_side inside is_named }
{
    if inside { is_named } else { !is_named }
}

/// Puts the entries of a row whose columns are on one side behind those in the lists.
fn keep_words(
    lists: &mut FiberLists,
    cols: &[u64],
    words: &[u64],
    members: &Members<'_>,
    inside: bool,
) -> Result<(), NoMemory>
    requires lengths { length words.now ≡ length cols.now }
    ensures { OnOk result (HasKept inside members.now.sorted.now cols.now words.now (length cols.now)
        lists.old lists.new) }
{
    for k in 0..cols.len() {
        if is_on(inside, members.has(cols[k])) {
            lists.inner.push(cols[k])?;
            lists.words.push(words[k])?;
        }
    }
    Ok(())
}

/// Whether a list names an index.
fn names(members: &Option<Members<'_>>, index: u64) -> bool
    ensures { (indices : Indices) (size : ℕ) → AreMembers indices members.now → index < size
        → result ≡ is_some (place_in size indices index) }
{
    match members {
        Some(members) => members.has(index),
        None => true,
    }
}
