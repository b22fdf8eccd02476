//! Rows of products, by their form.
ghost use Rattle.std.specs.Prelude.{◌≤◌, IfOk};
ghost use Rattle.algebra.specs.OperatorNames.{semiring_named};
ghost use Rattle.kernel.specs.Blocks.{HasRows, HasShape};
ghost use Rattle.kernel.specs.Factors.{AreFactors, cols_of_product, inner_of, rows_of_product};
ghost use Rattle.masks.specs.Writes.{inside_of};
ghost use Rattle.model.specs.Operations.{multiplied};
ghost use Rattle.store.specs.Stored.{content_of};

use algebra::Semiring;
use masks::Mask;
use model::{Form, NoMemory};
use spgemm::{multiply_rows_under, multiply_vector};
use std::alloc::Global;
use std::ops::Range;
use store::{RowBlock, Store};

/// The rows in a range of the product of two stores, at the positions that a mask lets through.
pub(crate) fn multiplied_rows(
    alloc: Global,
    form: Form,
    semiring: Semiring,
    a: &Store,
    b: &Store,
    mask: Mask<'_>,
    range: Range<u64>,
) -> Result<RowBlock, NoMemory>
    requires factors { AreFactors form a.now b.now }
    requires range { range.start ≤ range.end }
    requires rows { range.end ≤ rows_of_product form a.now b.now }
    requires mask { HasShape (rows_of_product form a.now b.now) (cols_of_product form b.now) mask }
    ensures { IfOk result (HasRows range.start range.end (cols_of_product form b.now) (inside_of mask.entry
        (multiplied form (semiring_named semiring) (inner_of form a.now) (content_of a.now) (content_of b.now)))) }
{
    let b = b.as_sparse(alloc)?;
    match form {
        Form::MatrixMatrix | Form::MatrixVector => {
            let a = a.lists_in(alloc, &range)?;
            multiply_rows_under(alloc, a.get(), b.get(), mask, semiring, range)
        }
        Form::VectorMatrix => {
            let a = a.as_sparse(alloc)?;
            multiply_vector(alloc, a.get(), b.get(), mask, semiring, range)
        }
    }
}
