//! What operations compute of lent objects, by the number of these.
ghost use Rattle.std.specs.Prelude.{◌≡◌, ◌≤◌, IfOk, true};
ghost use Rattle.kernel.specs.Accepts.{Accepts};
ghost use Rattle.kernel.specs.Blocks.{AgreesUnder, HasRows, HasShape, IsUnder};
ghost use Rattle.kernel.specs.Products.{is_product, is_product_of};
ghost use Rattle.kernel.specs.Inputs.{known_of, object_of};
ghost use Rattle.model.specs.Lent.{operation_lent};
ghost use Rattle.model.specs.Object.{cols_of, rows_of};
ghost use Rattle.model.specs.Operations.{computed_of_one, computed_of_two, operation as computed};
ghost use Rattle.model.specs.Renamed.{renamed_operation};
ghost use Rattle.model.specs.Table.{is_offered, offers_one, offers_two, plan_of, plan_of_one, plan_of_two};

use crate::elements::{applied_rows, combined_rows, selected_rows, summed_rows};
use crate::input::Input;
use crate::moving::{extracted_rows, filled_rows, placed_rows, transposed_rows};
use crate::product::multiplied_rows;
use calls::{OneInput, Signature, TwoInputs};
use masks::Mask;
use model::{Lent, NoMemory};
use std::alloc::Global;
use std::ops::Range;
use store::RowBlock;

/// The rows in a range of what an operation computes, of an output, in the domain of its answers. What stands
/// at positions that a mask doesn't let through doesn't count. Words are taken as they are stored, since an
/// operator looks at the values that they stand for.
pub(crate) fn operation_rows(
    alloc: Global,
    c: Signature,
    operation: Lent<'_, Input<'_>>,
    mask: Mask<'_>,
    range: Range<u64>,
) -> Result<RowBlock, NoMemory>
    requires accepts { Accepts (plan_of c (renamed_operation known_of (operation_lent operation))) c }
    requires offered { is_offered (operation_lent operation) ≡ true }
    requires mask { HasShape (rows_of c.shape) (cols_of c.shape) mask }
    requires range { range.start ≤ range.end }
    requires rows { range.end ≤ rows_of c.shape }
    ensures rows { IfOk result (AgreesUnder mask.entry range.start range.end (cols_of c.shape)
        (computed c (renamed_operation object_of (operation_lent operation.entry)))) }
    ensures under { IfOk result (λ block. is_product (operation_lent operation.entry) ≡ true
        → IsUnder mask.entry range.start range.end block) }
{
    match operation {
        Lent::Fill { value, region } => {
            filled_rows(alloc, c.shape, region, c.domain.wrapped(value), range)
        }
        Lent::OfOne { computes, a } => one_rows(alloc, c, computes, a, range),
        Lent::OfTwo { computes, a, b } => two_rows(alloc, c, computes, a, b, mask, range),
    }
}

/// The rows in a range of what is computed of one input.
fn one_rows(
    alloc: Global,
    c: Signature,
    computes: &OneInput,
    a: Input<'_>,
    range: Range<u64>,
) -> Result<RowBlock, NoMemory>
    requires accepts { Accepts (plan_of_one c computes.now a.signature) c }
    requires offered { offers_one computes.now ≡ true }
    requires range { range.start ≤ range.end }
    requires rows { range.end ≤ rows_of c.shape }
    ensures { IfOk result (HasRows range.start range.end (cols_of c.shape)
        (computed_of_one c.shape computes.now (object_of a.entry))) }
{
    match computes {
        OneInput::Apply(function) => applied_rows(alloc, a, *function, range),
        OneInput::Select { op, scalar } => selected_rows(alloc, a, *op, *scalar, range),
        OneInput::ReduceRows(monoid) => summed_rows(alloc, a, *monoid, range),
        OneInput::Transpose => transposed_rows(alloc, a.store, range),
        OneInput::Extract(region) => extracted_rows(alloc, a.store, region, range),
        OneInput::Assign(region) => placed_rows(alloc, c.shape, a.store, region, range),
    }
}

/// The rows in a range of what is computed of two inputs, at the positions that a mask lets through.
fn two_rows(
    alloc: Global,
    c: Signature,
    computes: TwoInputs,
    a: Input<'_>,
    b: Input<'_>,
    mask: Mask<'_>,
    range: Range<u64>,
) -> Result<RowBlock, NoMemory>
    requires accepts { Accepts (plan_of_two computes a.signature b.signature) c }
    requires offered { offers_two computes ≡ true }
    requires mask { HasShape (rows_of c.shape) (cols_of c.shape) mask }
    requires range { range.start ≤ range.end }
    requires rows { range.end ≤ rows_of c.shape }
    ensures rows { IfOk result (AgreesUnder mask.entry range.start range.end (cols_of c.shape)
        (computed_of_two computes (object_of a.entry) (object_of b.entry))) }
    ensures under { IfOk result (λ block. is_product_of computes ≡ true
        → IsUnder mask.entry range.start range.end block) }
{
    match computes {
        TwoInputs::Multiply { form, semiring } => {
            let Some(semiring) = semiring.resolve() else {
                unreachable!();
            };
            multiplied_rows(alloc, form, semiring, a.store, b.store, mask, range)
        }
        TwoInputs::Combine { positions, op } => combined_rows(alloc, positions, op, a, b, range),
    }
}
