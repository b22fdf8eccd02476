//! The form that suits what a store holds.
ghost use Rattle.std.specs.Prelude.{◌≡◌, IfErr, IfOk};
ghost use Rattle.store.specs.Forms.{IsSettled, kept_in, of_bitmap};

use crate::Sparse;
use crate::forms::{into_bitmap, sparse_of};
use crate::store::Kept;
use bitmap::Bitmap;
use fitting::{has_many, suits_bitmap};
use std::alloc::Global;

/// What is kept, in the form that suits it: lists as a bitmap, where many positions have an entry, and a bitmap of a
/// column that has few as lists. Where there is no memory for that it comes back as it was.
pub(crate) fn settled(alloc: Global, kept: Kept) -> Result<Kept, Kept>
    ensures same { IfOk result (λ new. kept_in new ≡ kept_in kept) }
    ensures settled { IfOk result IsSettled }
    ensures refused { IfErr result (λ back. back ≡ kept) }
{
    match kept {
        Kept::Sparse(sparse) => settled_lists(alloc, sparse),
        Kept::Bitmap(bitmap) => settled_bitmap(alloc, bitmap),
        Kept::Blocks(blocks) => Ok(Kept::Blocks(blocks)),
    }
}

/// Lists, or the bitmap that they are kept as.
fn settled_lists(alloc: Global, sparse: Sparse) -> Result<Kept, Kept>
    ensures same { IfOk result (λ new. kept_in new ≡ sparse) }
    ensures settled { IfOk result IsSettled }
    ensures refused { IfErr result (λ back. back ≡ Kept.Sparse sparse) }
{
    if !suits_bitmap(sparse.rows(), sparse.cols(), sparse.nvals()) {
        return Ok(Kept::Sparse(sparse));
    }
    match into_bitmap(alloc, sparse) {
        Ok(bitmap) => Ok(Kept::Bitmap(bitmap)),
        Err(sparse) => Err(Kept::Sparse(sparse)),
    }
}

/// A bitmap, or the lists that it is kept as.
fn settled_bitmap(alloc: Global, bitmap: Bitmap) -> Result<Kept, Kept>
    ensures same { IfOk result (λ new. kept_in new ≡ of_bitmap bitmap) }
    ensures settled { IfOk result IsSettled }
    ensures refused { IfErr result (λ back. back ≡ Kept.Bitmap bitmap) }
{
    if bitmap.cols() != 1 || has_many(bitmap.rows(), bitmap.nvals()) {
        return Ok(Kept::Bitmap(bitmap));
    }
    match sparse_of(alloc, &bitmap) {
        Ok(sparse) => Ok(Kept::Sparse(sparse)),
        Err(_) => Err(Kept::Bitmap(bitmap)),
    }
}
