//! Blocks of rows: what a mask keeps of one, and the join of two.
ghost use Rattle.std.specs.Prelude.{◌≡◌, ℕ, ◌<◌, ◌≤◌, if◌then◌else◌, None, IfOk};
ghost use Rattle.store.specs.Stored.{block_content, content_of};
ghost use Rattle.masks.specs.Joins.{alone_of, joined};
ghost use Rattle.masks.specs.Masks.{lets_word};

use crate::keep::keep_entries;
use crate::marked::keep_marked;
use crate::{Joining, MarkedMask, MaskTest, StoredMask, join_rows};
use model::NoMemory;
use std::alloc::Global;
use store::{Form, RowBlock, Sparse};

/// What a mask keeps of a block, in its memory. The bitmap of a column is asked at the block's entries alone, and any
/// other is read as lists.
pub fn keep_block(
    alloc: Global,
    block: RowBlock,
    mask: StoredMask<'_>,
) -> Result<RowBlock, NoMemory>
    requires { block.cols ≡ mask.store.now.cols }
    ensures first { IfOk result (λ kept. kept.first ≡ block.first) }
    ensures past { IfOk result (λ kept. kept.past ≡ block.past) }
    ensures cols { IfOk result (λ kept. kept.cols ≡ block.cols) }
    ensures words { IfOk result (λ kept. (i j : ℕ) → block.first ≤ i → i < block.past → block_content kept i j
        ≡ (if lets_word mask.entry.test (content_of mask.entry.store.now i j) then block_content block i j else None)) }
{
    let test = mask.test;
    if let Form::Bitmap(bitmap) = mask.store.form()
        && block.cols() == 1
    {
        return Ok(keep_marked(block, MarkedMask { bitmap, test }));
    }
    let stored = mask.store.as_sparse(alloc)?;
    Ok(keep_listed(block, test, stored.get()))
}

/// What a mask keeps of a block, by the lists of its store.
fn keep_listed(block: RowBlock, test: MaskTest, stored: &Sparse) -> RowBlock
    requires { block.cols ≡ stored.now.cols }
    ensures first { result.first ≡ block.first }
    ensures past { result.past ≡ block.past }
    ensures cols { result.cols ≡ block.cols }
    ensures words { (i j : ℕ) → block.first ≤ i → i < block.past → block_content result i j
        ≡ (if lets_word test (content_of stored.now i j) then block_content block i j else None) }
{
    let (first, past, cols) = (block.first(), block.past(), block.cols());
    let lists = keep_entries(block.into_lists(), test, stored.fibers_in(first..past));
    RowBlock::of_fibers(first, past, cols, lists)
}

/// The join of two blocks of the same rows.
pub(crate) fn join_blocks(
    alloc: Global,
    left: RowBlock,
    right: RowBlock,
    by: Joining,
) -> Result<RowBlock, NoMemory>
    requires first { left.first ≡ right.first }
    requires past { left.past ≡ right.past }
    requires cols { left.cols ≡ right.cols }
    requires alone { (word : ℕ) → alone_of by word ≡ word }
    ensures first { IfOk result (λ r. r.first ≡ right.first) }
    ensures past { IfOk result (λ r. r.past ≡ right.past) }
    ensures cols { IfOk result (λ r. r.cols ≡ right.cols) }
    ensures words { IfOk result (λ r. (i j : ℕ) → right.first ≤ i → i < right.past → block_content r i j
        ≡ joined by (block_content left) (block_content right) i j) }
{
    if right.fibers().len() == 0 {
        return Ok(left);
    }
    if left.fibers().len() == 0 {
        return Ok(right);
    }
    let (first, past) = (right.first(), right.past());
    let left = Sparse::from_block(past, left);
    let right = Sparse::from_block(past, right);
    join_rows(alloc, &left, &right, by, first..past)
}
