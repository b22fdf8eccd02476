//! Rows of what goes entry by entry: functions of each, those that pass a test, the sums of rows, and an
//! operator's answers for two inputs.
ghost use Rattle.std.specs.Prelude.{◌≡◌, ◌≤◌, IfOk, true};
ghost use Rattle.algebra.specs.Functions.{function_domain, offers_function, takes};
ghost use Rattle.algebra.specs.IndexOperators.{offers_index, takes_index};
ghost use Rattle.algebra.specs.Operators.{combines_by, offers};
ghost use Rattle.algebra.specs.Value.{are_compatible};
ghost use Rattle.kernel.specs.Blocks.{HasRows};
ghost use Rattle.kernel.specs.Inputs.{object_of};
ghost use Rattle.model.specs.ElementWise.{applied, selected};
ghost use Rattle.model.specs.Object.{cols_of, in_domain};
ghost use Rattle.model.specs.Operations.{combined};
ghost use Rattle.model.specs.Reductions.{row_sums};

use crate::input::Input;
use algebra::{FunctionName, IndexName, MonoidName, OpName};
use calls::Positions;
use elementwise::{apply_rows, intersect_rows, reduce_rows, select_rows, union_rows};
use model::NoMemory;
use std::alloc::Global;
use std::ops::Range;
use store::RowBlock;

/// The rows in a range of a function of each entry.
pub(crate) fn applied_rows(
    alloc: Global,
    a: Input<'_>,
    function: FunctionName,
    range: Range<u64>,
) -> Result<RowBlock, NoMemory>
    requires offered { offers_function function ≡ true }
    requires takes { takes function a.signature.domain ≡ true }
    requires range { range.start ≤ range.end }
    ensures { IfOk result (HasRows range.start range.end (cols_of a.entry.signature.shape)
        (applied function (in_domain (function_domain function) (object_of a.entry)))) }
{
    let Some(function) = function.resolve() else {
        unreachable!();
    };
    let a = a.store.lists_in(alloc, &range)?;
    apply_rows(alloc, a.get(), function, range)
}

/// The rows in a range of the entries for which an index operator's answer is true.
pub(crate) fn selected_rows(
    alloc: Global,
    a: Input<'_>,
    op: IndexName,
    scalar: i128,
    range: Range<u64>,
) -> Result<RowBlock, NoMemory>
    requires offered { offers_index op.kind op.domain ≡ true }
    requires takes { takes_index op.kind op.domain a.signature.domain ≡ true }
    requires range { range.start ≤ range.end }
    ensures { IfOk result (HasRows range.start range.end (cols_of a.entry.signature.shape)
        (selected op scalar (object_of a.entry))) }
{
    let Some(op) = op.resolve() else {
        unreachable!();
    };
    let s = op.scalar().wrapped(scalar);
    let a = a.store.lists_in(alloc, &range)?;
    select_rows(alloc, a.get(), op, s, range)
}

/// The sums of the rows in a range.
pub(crate) fn summed_rows(
    alloc: Global,
    a: Input<'_>,
    monoid: MonoidName,
    range: Range<u64>,
) -> Result<RowBlock, NoMemory>
    requires offered { offers (combines_by monoid.kind) monoid.domain ≡ true }
    requires takes { are_compatible a.signature.domain monoid.domain ≡ true }
    requires range { range.start ≤ range.end }
    ensures { IfOk result (HasRows range.start range.end 1
        (row_sums monoid (cols_of a.entry.signature.shape) (in_domain monoid.domain (object_of a.entry)))) }
{
    let Some(monoid) = monoid.resolve() else {
        unreachable!();
    };
    let a = a.store.lists_in(alloc, &range)?;
    reduce_rows(alloc, a.get(), monoid, range)
}

/// The rows in a range of an operator's answers for two inputs, at the positions that either or both have.
pub(crate) fn combined_rows(
    alloc: Global,
    positions: Positions,
    op: OpName,
    a: Input<'_>,
    b: Input<'_>,
    range: Range<u64>,
) -> Result<RowBlock, NoMemory>
    requires offered { offers op.kind op.domain ≡ true }
    requires takes_first { are_compatible a.signature.domain op.domain ≡ true }
    requires takes_second { are_compatible b.signature.domain op.domain ≡ true }
    requires cols { cols_of a.signature.shape ≡ cols_of b.signature.shape }
    requires range { range.start ≤ range.end }
    ensures { IfOk result (HasRows range.start range.end (cols_of a.entry.signature.shape)
        (combined positions op (object_of a.entry) (object_of b.entry))) }
{
    let Some(op) = op.resolve() else {
        unreachable!();
    };
    let a = a.store.lists_in(alloc, &range)?;
    let b = b.store.lists_in(alloc, &range)?;
    match positions {
        Positions::Union => union_rows(alloc, a.get(), b.get(), op, range),
        Positions::Intersection => intersect_rows(alloc, a.get(), b.get(), op, range),
    }
}
