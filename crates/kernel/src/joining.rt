//! Joins of blocks to the store of what a recipe gives.
ghost use Rattle.std.specs.Prelude.{◌≡◌, ℕ};
ghost use Rattle.calls.specs.Recipes.{known_of};
ghost use Rattle.kernel.specs.Pieces.{HasAllRows, IfRows, cols_in, content_in};
ghost use Rattle.model.specs.Object.{IsWithin, rows_of};
ghost use Rattle.store.specs.Stored.{content_of};

use crate::block::Block;
use calls::{Operation, Recipe, TwoInputs};
use fitting::may_be_bitmap;
use model::Form;
use std::alloc::Global;
use store::Store;

/// The store of what a recipe gives, of the block that holds all its rows, whose lists it takes over. Where many
/// positions have an entry, it is kept as a bitmap from here on; but a column that comes whole, as one that was edited
/// or written in place, keeps its form, and so does what is likely to be read as lists again.
pub fn join(alloc: Global, recipe: &Recipe, block: Block) -> Store
    requires { HasAllRows recipe.now block }
    ensures rows { result.rows ≡ rows_of (known_of recipe.now).shape }
    ensures cols { result.cols ≡ cols_in block }
    ensures content { (i j : ℕ) → content_of result i j ≡ content_in block i j }
    ensures within { IfRows block (IsWithin result.rows result.cols (content_of result)) }
{
    let mut store = match block {
        Block::Rows(rows) => Store::from_block(recipe.signature().shape.rows(), rows),
        Block::Whole(store) if store.cols() == 1 => return store,
        Block::Whole(store) => store,
    };
    if !stays_listed(recipe) {
        store.settle(alloc);
    }
    store
}

/// Whether the store of what a recipe gives is lists, whatever it has.
pub fn makes_lists(recipe: &Recipe) -> bool {
    let shape = recipe.signature().shape;
    stays_listed(recipe) || !may_be_bitmap(shape.rows(), shape.cols())
}

/// Whether what a recipe leaves stays in lists: a product, whose factors are read as lists; but no product with a
/// vector that has a way of its own with bitmaps, which is without a mask, or of a vector and a matrix where nothing
/// stays of what was there (`GrB_REPLACE`, no accumulator).
fn stays_listed(recipe: &Recipe) -> bool {
    let Recipe::Computed(computation) = recipe else {
        return false;
    };
    let Operation::OfTwo { computes, .. } = computation.accepted.operation else {
        return false;
    };
    let out = &computation.accepted.out;
    match computes {
        TwoInputs::Multiply { form, .. } => match form {
            Form::MatrixMatrix => true,
            Form::MatrixVector => out.mask.is_some(),
            Form::VectorMatrix => {
                out.mask.is_some() && (!out.desc.replace || out.accum.is_some())
            }
        },
        TwoInputs::Combine { .. } => false,
    }
}
