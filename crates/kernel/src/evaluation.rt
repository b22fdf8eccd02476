//! Recipes, evaluated at once.
ghost use Rattle.std.specs.Prelude.{◌≡◌, ℕ, IfOk};
ghost use Rattle.calls.specs.Recipes.{known_by, known_of, meaning_of};
ghost use Rattle.calls.specs.Stores.{object_with};
ghost use Rattle.kernel.specs.Takes.{AreInputs, maps_in};
ghost use Rattle.model.specs.Object.{IsObject, cols_of, rows_of};
ghost use Rattle.store.specs.Stored.{content_of};

use crate::joining::join;
use crate::piece::eval_piece;
use calls::{Recipe, Roles};
use model::NoMemory;
use std::alloc::Global;
use store::Store;

/// All rows of what a recipe gives of the stores that take its roles.
pub fn evaluate(alloc: Global, recipe: &Recipe, stores: &Roles<&Store>) -> Result<Store, NoMemory>
    requires inputs { AreInputs (known_by recipe.now) stores.now }
    ensures rows { IfOk result (λ store. store.rows ≡ rows_of (known_of recipe.now).shape) }
    ensures cols { IfOk result (λ store. store.cols ≡ cols_of (known_of recipe.now).shape) }
    ensures content { IfOk result (λ store. (i j : ℕ)
        → content_of store i j ≡ meaning_of recipe.now (maps_in stores.now) i j) }
    ensures is_object { IfOk result (λ store. IsObject (object_with (known_of recipe.now) (content_of store))) }
{
    let rows = recipe.signature().shape.rows();
    let block = eval_piece(alloc, recipe, stores, 0..rows)?;
    Ok(join(alloc, recipe, block))
}
