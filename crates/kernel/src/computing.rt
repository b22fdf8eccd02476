//! What a task's operation computes, before it is written back.
ghost use Rattle.std.specs.Prelude.{◌≡◌, ℕ, ◌<◌, ◌≤◌, IfOk, Some, if◌then◌else◌, true};
ghost use Rattle.algebra.specs.Value.{IsWordOf};
ghost use Rattle.kernel.specs.Blocks.{AgreesUnder, HasShape, IsUnder};
ghost use Rattle.kernel.specs.Inputs.{known_of};
ghost use Rattle.kernel.specs.Spread.{computed_in, spread};
ghost use Rattle.kernel.specs.Products.{is_product};
ghost use Rattle.kernel.specs.Tasks.{operation_of, out_of};
ghost use Rattle.model.specs.Indices.{are_below};
ghost use Rattle.model.specs.Lent.{operation_lent};
ghost use Rattle.model.specs.Object.{cast_content, cols_of, rows_of};
ghost use Rattle.model.specs.Regions.{cols_in, is_listed, rows_in};
ghost use Rattle.model.specs.Renamed.{renamed_operation};
ghost use Rattle.model.specs.Table.{plan_of};
ghost use Rattle.store.specs.Stored.{block_content, content_of};

use crate::input::Input;
use crate::operating::operation_rows;
use crate::task::Task;
use algebra::Domain;
use calls::{IndexList, Region, Signature};
use masks::Mask;
use model::{Lent, NoMemory};
use shapes::put_rows;
use std::alloc::Global;
use std::ops::Range;
use store::{RowBlock, Store};

/// The rows in a range of what is written back, in the output's domain: what a task's operation computes,
/// and outside its region what is there. What stands at positions that a mask doesn't let through doesn't
/// count: a product leaves it out.
pub(crate) fn computed_rows(
    alloc: Global,
    task: &Task<'_>,
    mask: Mask<'_>,
    range: Range<u64>,
) -> Result<RowBlock, NoMemory>
    requires range { range.start ≤ range.end }
    requires rows { range.end ≤ rows_of task.now.out.c.signature.shape }
    requires mask { HasShape (rows_of task.now.out.c.signature.shape) (cols_of task.now.out.c.signature.shape) mask }
    ensures rows { IfOk result (AgreesUnder mask.entry range.start range.end (cols_of task.now.out.c.signature.shape)
        (spread (out_of task.now) (operation_of task.now))) }
    ensures under { IfOk result (λ block. is_product (operation_lent task.now.operation) ≡ true
        → IsUnder mask.entry range.start range.end block) }
{
    let block = cast_rows(alloc, task, mask, range)?;
    if task.out.accum.is_some() {
        return Ok(block);
    }
    match task.operation.region_written() {
        Some(region) => over_old(alloc, task.out.c.store, block, region),
        None => Ok(block),
    }
}

/// The rows in a range of what a task's operation computes, in the output's domain.
fn cast_rows(
    alloc: Global,
    task: &Task<'_>,
    mask: Mask<'_>,
    range: Range<u64>,
) -> Result<RowBlock, NoMemory>
    requires range { range.start ≤ range.end }
    requires rows { range.end ≤ rows_of task.now.out.c.signature.shape }
    requires mask { HasShape (rows_of task.now.out.c.signature.shape) (cols_of task.now.out.c.signature.shape) mask }
    ensures rows { IfOk result (AgreesUnder mask.entry range.start range.end (cols_of task.now.out.c.signature.shape)
        (computed_in (out_of task.now) (operation_of task.now))) }
    ensures under { IfOk result (λ block. is_product (operation_lent task.now.operation) ≡ true
        → IsUnder mask.entry range.start range.end block) }
{
    let c = task.out.c.signature;
    let block = operation_rows(alloc, c, task.operation, mask, range)?;
    let from = answer_of(c, task.operation);
    Ok(block_in_domain(block, from, c.domain))
}

/// A block in its region, and what a store has outside it.
fn over_old(
    alloc: Global,
    old: &Store,
    block: RowBlock,
    region: &Region,
) -> Result<RowBlock, NoMemory>
    requires rows { are_below old.now.rows (rows_in region.now) ≡ true }
    requires cols { are_below old.now.cols (cols_in region.now) ≡ true }
    requires start { block.first ≤ block.past }
    requires end { block.past ≤ old.now.rows }
    requires columns { block.cols ≡ old.now.cols }
    ensures first { IfOk result (λ new. new.first ≡ block.first) }
    ensures past { IfOk result (λ new. new.past ≡ block.past) }
    ensures cols { IfOk result (λ new. new.cols ≡ block.cols) }
    ensures words { IfOk result (λ new. (i j : ℕ) → block.first ≤ i → i < block.past → block_content new i j
        ≡ (if is_listed old.now.rows old.now.cols (rows_in region.now) (cols_in region.now) i j
        then block_content block i j
        else content_of old.now i j)) }
{
    let old = old.lists_in(alloc, &(block.first()..block.past()))?;
    match region {
        Region::One(rows) => put_rows(alloc, old.get(), block, rows, &IndexList::all()),
        Region::Two(rows, cols) => put_rows(alloc, old.get(), block, rows, cols),
    }
}

/// The domain of what an operation computes, of an output.
pub(crate) fn answer_of(c: Signature, operation: Lent<'_, Input<'_>>) -> Domain
    ensures { result ≡ (plan_of c (renamed_operation known_of (operation_lent operation.entry))).domain }
{
    match operation {
        Lent::Fill { .. } => c.domain,
        Lent::OfOne { computes, a } => computes.answer(a.signature),
        Lent::OfTwo { computes, .. } => computes.answer(),
    }
}

/// A block of words of one domain in another, in the same memory.
fn block_in_domain(mut block: RowBlock, from: Domain, to: Domain) -> RowBlock
    ensures first { result.first ≡ block.first }
    ensures past { result.past ≡ block.past }
    ensures cols { result.cols ≡ block.cols }
    ensures content { (i j : ℕ) → ((word : ℕ) → block_content block i j ≡ Some word → IsWordOf from word)
        → block_content result i j ≡ cast_content from to (block_content block) i j }
{
    if !from.is_same(to) {
        block.cast(from, to);
    }
    block
}
