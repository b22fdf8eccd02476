//! Stores that are built of tuples.
ghost use Rattle.std.specs.Prelude.{◌≡◌, ℕ, IfOk, true};
ghost use Rattle.std.specs.Option.{option_map};
ghost use Rattle.algebra.specs.OperatorNames.{op_named};
ghost use Rattle.model.specs.Builds.{are_inside, are_values_of, built};
ghost use Rattle.model.specs.Object.{cols_of, rows_of};
ghost use Rattle.store.specs.Stored.{content_of};

use crate::sorted::block_of_sorted;
use algebra::{BinaryOp, Domain};
use model::{NoMemory, Shape, TupleList};
use std::alloc::Global;
use store::Store;

/// The store of a shape that tuples make, with values of a domain (`GrB_Matrix_build`,
/// `GrB_Vector_build`). The values of one position are joined by an operator in the order of the list;
/// without one the last stands. Its time follows the number of tuples, which the list keeps sorted.
pub fn build(
    alloc: Global,
    shape: Shape,
    domain: Domain,
    dup: Option<BinaryOp>,
    tuples: &TupleList,
) -> Result<Store, NoMemory>
    requires inside { are_inside shape tuples.now ≡ true }
    requires values { are_values_of domain tuples.now ≡ true }
    ensures rows { IfOk result (λ store. store.rows ≡ rows_of shape) }
    ensures cols { IfOk result (λ store. store.cols ≡ cols_of shape) }
    ensures content { IfOk result (λ store. (i j : ℕ) → content_of store i j
        ≡ built (option_map op_named dup) domain tuples.now i j) }
{
    let (rows, cols) = (shape.rows(), shape.cols());
    // The words of the entries are those of the domain already, since the values are.
    let entries = Vec::from_slice(alloc, tuples.sorted())?;
    let block = block_of_sorted(alloc, entries, dup, 0..rows, cols)?;
    Ok(Store::from_block(rows, block))
}
