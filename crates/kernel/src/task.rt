//! Operations whose objects are lent.
ghost use Rattle.std.specs.Prelude.{◌≡◌, ◌<◌, ◌≤◌, ℕ, IfOk, None};
ghost use Rattle.kernel.specs.Inputs.{known_of, object_of};
ghost use Rattle.calls.specs.Straight.{IsStraight};
ghost use Rattle.kernel.specs.Products.{is_product};
ghost use Rattle.model.specs.Fault.{operation_fault};
ghost use Rattle.model.specs.Lent.{operation_lent};
ghost use Rattle.model.specs.Object.{cols_of, rows_of};
ghost use Rattle.model.specs.Renamed.{renamed_operation, renamed_out};
ghost use Rattle.model.specs.WriteBack.{result_of};
ghost use Rattle.store.specs.Stored.{block_content};

use crate::computing::computed_rows;
use crate::input::Input;
use crate::output::{accumulator_of, mask_of};
use calls::{Out, TwoInputs};
use masks::write_back;
use model::{Lent, NoMemory};
use std::alloc::Global;
use std::ops::Range;
use store::RowBlock;

/// An accepted operation that transposes no input, on objects that are lent.
#[derive(Clone, Copy)]
pub(crate) struct Task<'a> {
    pub out: Out<Input<'a>>,
    pub operation: Lent<'a, Input<'a>>,
    pub ghost accepted: { operation_fault (renamed_out known_of out)
        (renamed_operation known_of (operation_lent operation)) ≡ None },
    pub ghost straight: { IsStraight out.desc },
}

/// The rows in a range of what a task leaves in its output: its operation's result, accumulated, masked
/// and written back. Its time and memory are those of the operation on these rows.
pub(crate) fn task_rows(
    alloc: Global,
    task: &Task<'_>,
    range: Range<u64>,
) -> Result<RowBlock, NoMemory>
    requires range { range.start ≤ range.end }
    requires rows { range.end ≤ rows_of task.now.out.c.signature.shape }
    ensures first { IfOk result (λ block. block.first ≡ range.start) }
    ensures past { IfOk result (λ block. block.past ≡ range.end) }
    ensures cols { IfOk result (λ block. block.cols ≡ cols_of task.now.out.c.signature.shape) }
    ensures words { IfOk result (λ block. (i j : ℕ) → range.start ≤ i → i < range.end
        → block_content block i j ≡ result_of (renamed_out object_of task.now.out)
        (renamed_operation object_of (operation_lent task.now.operation)) i j) }
{
    let mask = mask_of(task);
    let t = computed_rows(alloc, task, mask, range)?;
    let Out { c, accum, desc, .. } = task.out;
    if desc.replace && accum.is_none() && is_product(task.operation) {
        // It has nothing outside the mask, and what was there goes.
        return Ok(t);
    }
    let old = c.store.lists_in(alloc, &(t.first()..t.past()))?;
    write_back(
        alloc,
        old.get(),
        t,
        mask,
        accumulator_of(task),
        desc.replace,
    )
}

/// Whether an operation is a product.
#[tactic(auto, unfolding(crate::specs::Products::is_product, crate::specs::Products::is_product_of))]
fn is_product(operation: Lent<'_, Input<'_>>) -> bool
    ensures { result ≡ is_product (operation_lent operation.entry) }
{
    match operation {
        Lent::OfTwo { computes, .. } => matches!(computes, TwoInputs::Multiply { .. }),
        Lent::Fill { .. } | Lent::OfOne { .. } => false,
    }
}
