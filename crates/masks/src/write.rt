//! The write-back: what a call leaves in its output.
ghost use Rattle.std.specs.Prelude.{◌≡◌, ℕ, ◌<◌, ◌≤◌, if◌then◌else◌, Bool, Option, IfOk, None, true, false};
ghost use Rattle.std.specs.Option.{option_map};
ghost use Rattle.algebra.specs.OperatorNames.{op_named};
ghost use Rattle.algebra.specs.declared.operator_names.OpName.{OpName};
ghost use Rattle.model.specs.WriteBack.{accumulated};
ghost use Rattle.store.specs.Stored.{block_content, content_of};
ghost use Rattle.masks.specs.Masks.{IfStored, lets_word};
ghost use Rattle.masks.specs.Writes.{written_at, written_by};

use crate::alike::join_over;
use crate::blocks::{join_blocks, keep_block};
use crate::{Joining, Mask, StoredMask, are_alike, join_rows};
use algebra::BinaryOp;
use model::NoMemory;
use std::alloc::Global;
use store::{RowBlock, Sparse};

/// The rows of `t` of what a call leaves in its output: in the mask set what it computed, `t`, accumulated
/// by an operator into what was there, `old`, or in its place; and outside it what was there, or nothing
/// where the call replaces (`GrB_REPLACE`).
///
/// The work is over the entries of `old`, of `t` and of the mask's store in these rows; a complement never
/// lists the grid. `t` is taken over, and what is left stands in its memory where nothing has to be merged.
#[inline(always)]
pub fn write_back(
    alloc: Global,
    old: &Sparse,
    t: RowBlock,
    mask: Mask<'_>,
    accum: Option<BinaryOp>,
    replace: bool,
) -> Result<RowBlock, NoMemory>
    requires cols { t.cols ≡ old.now.cols }
    requires mask { IfStored mask (λ store. store.cols ≡ old.now.cols) }
    ensures first { IfOk result (λ block. block.first ≡ t.first) }
    ensures past { IfOk result (λ block. block.past ≡ t.past) }
    ensures cols { IfOk result (λ block. block.cols ≡ t.cols) }
    ensures words { IfOk result (λ block. (i j : ℕ) → t.first ≤ i → i < t.past → block_content block i j
        ≡ written_by mask.entry (option_map op_named accum) replace (content_of old.now) (block_content t) i j) }
{
    match mask {
        Mask::Everywhere => write_all(alloc, old, t, accum),
        Mask::Nowhere => write_nowhere(alloc, old, t, replace),
        Mask::By(mask) => write_under(alloc, old, t, mask, accum, replace),
    }
}

/// Every position is written.
#[inline(always)]
fn write_all(
    alloc: Global,
    old: &Sparse,
    t: RowBlock,
    accum: Option<BinaryOp>,
) -> Result<RowBlock, NoMemory>
    requires { t.cols ≡ old.now.cols }
    ensures first { IfOk result (λ block. block.first ≡ t.first) }
    ensures past { IfOk result (λ block. block.past ≡ t.past) }
    ensures cols { IfOk result (λ block. block.cols ≡ t.cols) }
    ensures words { IfOk result (λ block. (replace : Bool) (i j : ℕ) → t.first ≤ i → i < t.past
        → block_content block i j
        ≡ written_at (option_map op_named accum) replace true (content_of old.now i j) (block_content t i j)) }
{
    match accum {
        Some(op) => accumulate(alloc, old, t, op),
        None => Ok(t),
    }
}

/// No position is written: what was there stays, or goes where the call replaces.
fn write_nowhere(
    alloc: Global,
    old: &Sparse,
    t: RowBlock,
    replace: bool,
) -> Result<RowBlock, NoMemory>
    requires { t.cols ≡ old.now.cols }
    ensures first { IfOk result (λ block. block.first ≡ t.first) }
    ensures past { IfOk result (λ block. block.past ≡ t.past) }
    ensures cols { IfOk result (λ block. block.cols ≡ t.cols) }
    ensures words { IfOk result (λ block. (accum : Option OpName) (i j : ℕ) → t.first ≤ i → i < t.past
        → block_content block i j
        ≡ written_at accum replace false (content_of old.now i j) (block_content t i j)) }
{
    if replace {
        Ok(RowBlock::new(alloc, t.first(), t.past(), t.cols()))
    } else {
        old.copy_rows(alloc, t.first()..t.past())
    }
}

/// The positions are written that a store lets through.
fn write_under(
    alloc: Global,
    old: &Sparse,
    t: RowBlock,
    mask: StoredMask<'_>,
    accum: Option<BinaryOp>,
    replace: bool,
) -> Result<RowBlock, NoMemory>
    requires cols { t.cols ≡ old.now.cols }
    requires mask { mask.store.now.cols ≡ old.now.cols }
    ensures first { IfOk result (λ block. block.first ≡ t.first) }
    ensures past { IfOk result (λ block. block.past ≡ t.past) }
    ensures cols { IfOk result (λ block. block.cols ≡ t.cols) }
    ensures words { IfOk result (λ block. (i j : ℕ) → t.first ≤ i → i < t.past → block_content block i j
        ≡ written_at (option_map op_named accum) replace
        (lets_word mask.entry.test (content_of mask.entry.store.now i j))
        (content_of old.now i j) (block_content t i j)) }
{
    let inside = keep_block(alloc, t, mask)?;
    match (accum, replace) {
        (None, true) => Ok(inside),
        (None, false) => write_over(alloc, old, inside, mask),
        (Some(op), true) => {
            let kept = old_rows(alloc, old, &inside, mask)?;
            join_blocks(alloc, kept, inside, Joining::Accumulate(op))
        }
        (Some(op), false) => accumulate(alloc, old, inside, op),
    }
}

/// What was computed at the positions that a mask lets through, beside what was there at the others.
pub(crate) fn write_over(
    alloc: Global,
    old: &Sparse,
    inside: RowBlock,
    mask: StoredMask<'_>,
) -> Result<RowBlock, NoMemory>
    requires cols { inside.cols ≡ old.now.cols }
    requires mask { mask.store.now.cols ≡ old.now.cols }
    requires inside { (i j : ℕ) → inside.first ≤ i → i < inside.past
        → lets_word mask.test (content_of mask.store.now i j) ≡ false → block_content inside i j ≡ None }
    ensures first { IfOk result (λ block. block.first ≡ inside.first) }
    ensures past { IfOk result (λ block. block.past ≡ inside.past) }
    ensures cols { IfOk result (λ block. block.cols ≡ inside.cols) }
    ensures words { IfOk result (λ block. (i j : ℕ) → inside.first ≤ i → i < inside.past → block_content block i j
        ≡ written_at None false (lets_word mask.entry.test (content_of mask.entry.store.now i j))
        (content_of old.now i j) (block_content inside i j)) }
{
    let rest = old_rows(alloc, old, &inside, mask.complement())?;
    join_blocks(alloc, rest, inside, Joining::Right)
}

/// What a mask keeps of what was there in the rows of a block.
fn old_rows(
    alloc: Global,
    old: &Sparse,
    block: &RowBlock,
    mask: StoredMask<'_>,
) -> Result<RowBlock, NoMemory>
    requires { mask.store.now.cols ≡ old.now.cols }
    ensures first { IfOk result (λ rows. rows.first ≡ block.now.first) }
    ensures past { IfOk result (λ rows. rows.past ≡ block.now.past) }
    ensures cols { IfOk result (λ rows. rows.cols ≡ old.now.cols) }
    ensures words { IfOk result (λ rows. (i j : ℕ) → block.now.first ≤ i → i < block.now.past → block_content rows i j
        ≡ (if lets_word mask.entry.test (content_of mask.entry.store.now i j) then content_of old.now i j else None)) }
{
    let rows = old.copy_rows(alloc, block.first()..block.past())?;
    keep_block(alloc, rows, mask)
}

/// Accumulates what was computed into what was there, at every position.
pub(crate) fn accumulate(
    alloc: Global,
    old: &Sparse,
    t: RowBlock,
    op: BinaryOp,
) -> Result<RowBlock, NoMemory>
    requires { t.cols ≡ old.now.cols }
    ensures first { IfOk result (λ block. block.first ≡ t.first) }
    ensures past { IfOk result (λ block. block.past ≡ t.past) }
    ensures cols { IfOk result (λ block. block.cols ≡ t.cols) }
    ensures words { IfOk result (λ block. (i j : ℕ) → t.first ≤ i → i < t.past → block_content block i j
        ≡ accumulated (op_named op) (content_of old.now i j) (block_content t i j)) }
{
    let (first, past) = (t.first(), t.past());
    if t.fibers().len() == 0 {
        return old.copy_rows(alloc, first..past);
    }
    let olds = old.fibers_in(first..past);
    if olds.len() == 0 {
        return Ok(t);
    }
    if are_alike(&olds, &t.fibers()) {
        return join_over(alloc, &olds, t, Joining::Accumulate(op));
    }
    let t = Sparse::from_block(past, t);
    join_rows(alloc, old, &t, Joining::Accumulate(op), first..past)
}
