//! Pieces of what recipes give.
ghost use Rattle.std.specs.Prelude.{◌≡◌, ◌<◌, ◌≤◌, ℕ, IfOk, None, Some};
ghost use Rattle.std.specs.Arc.{arc_value};
ghost use Rattle.std.specs.Option.{option_map};
ghost use Rattle.calls.specs.Recipes.{known_by, known_by_role, known_of as makes, operation_with, out_with};
ghost use Rattle.calls.specs.Stores.{IsStoreOf, object_with};
ghost use Rattle.calls.specs.Straight.{IsStraight};
ghost use Rattle.kernel.specs.Inputs.{known_of, object_of};
ghost use Rattle.kernel.specs.Pieces.{HasForm, IsPieceOf};
ghost use Rattle.kernel.specs.Takes.{AreInputs, Takes, map_in, maps_in};
ghost use Rattle.model.specs.Lent.{operation_lent};
ghost use Rattle.model.specs.Object.{cols_of, rows_of};
ghost use Rattle.model.specs.Renamed.{renamed_operation, renamed_out};
ghost use Rattle.patch.specs.Edits.{edited};
ghost use Rattle.store.specs.Stored.{content_of};

use crate::bitmaps::task_bitmap;
use crate::block::Block;
use crate::input::Input;
use crate::moving::{resized, transposed, transposed_rows};
use crate::task::{Task, task_rows};
use bitmap::OneThread;
use calls::{Accepted, Computation, Operation, Out, Patch, Recipe, Roles, Signature};
use model::{Lent, NoMemory};
use patch::apply_edits;
use spgemm::VectorProducts;
use std::alloc::Global;
use std::ops::Range;
use std::sync::Arc;
use store::Store;

/// The rows in a range of what a recipe gives of the stores that take its roles. Its time and memory are those of the
/// operation, or of the transpose, on these rows; a recipe of another kind isn't cut, and gives all rows.
pub fn eval_piece(
    alloc: Global,
    recipe: &Recipe,
    stores: &Roles<&Store>,
    range: Range<u64>,
) -> Result<Block, NoMemory>
    requires inputs { AreInputs (known_by recipe.now) stores.now }
    requires range { range.start ≤ range.end }
    requires rows { range.end ≤ rows_of (makes recipe.now).shape }
    ensures piece { IfOk result (IsPieceOf recipe.now (maps_in stores.now) range.start range.end) }
    ensures form { IfOk result (HasForm recipe.now range.start range.end) }
{
    eval_piece_by(&OneThread, alloc, recipe, stores, range)
}

/// What `eval_piece` gives, where a product of a vector and a matrix that goes along bitmaps is made by `products`.
pub fn eval_piece_by<P: VectorProducts>(
    products: &P,
    alloc: Global,
    recipe: &Recipe,
    stores: &Roles<&Store>,
    range: Range<u64>,
) -> Result<Block, NoMemory>
    requires inputs { AreInputs (known_by recipe.now) stores.now }
    requires range { range.start ≤ range.end }
    requires rows { range.end ≤ rows_of (makes recipe.now).shape }
    ensures piece { IfOk result (IsPieceOf recipe.now (maps_in stores.now) range.start range.end) }
    ensures form { IfOk result (HasForm recipe.now range.start range.end) }
{
    let store = match recipe {
        Recipe::Computed(computation) => {
            return computed_piece(products, alloc, recipe, computation, stores, range);
        }
        Recipe::New(of) => Store::new(alloc, of.shape.rows(), of.shape.cols()),
        Recipe::Given(given) => given.store.try_clone()?,
        Recipe::Patch(patch) => { edited(alloc, patch, taking(patch.of, stores.old).try_clone()?)? }
        Recipe::Resized(change) => {
            let old = taking(change.of, stores.old);
            resized(alloc, old, change.shape.rows(), change.shape.cols())?
        }
        Recipe::Transposed(turn) => {
            let a = taking(turn.of, stores.first);
            if range.start > 0 || range.end < a.cols() {
                return Ok(Block::Rows(transposed_rows(alloc, a, range)?));
            }
            transposed(alloc, a)?
        }
    };
    Ok(Block::Whole(store))
}

/// The store that takes a role that is read.
fn taking(known: Signature, store: Option<&Store>) -> &Store
    requires { Takes (Some known) (option_map (λ store. store.now) store) }
    ensures is { IsStoreOf known result.now }
    ensures map { content_of result.now ≡ map_in (option_map (λ store. store.now) store.entry) }
{
    match store {
        Some(store) => store,
        None => unreachable!(),
    }
}

/// A store after edits, which are done in it where nobody shares it, and else in a copy.
pub fn patch_over(alloc: Global, patch: &Patch, old: Arc<Store>) -> Result<Store, NoMemory>
    requires { IsStoreOf patch.now.of (arc_value old) }
    ensures rows { IfOk result (λ store. store.rows ≡ rows_of patch.now.of.shape) }
    ensures cols { IfOk result (λ store. store.cols ≡ cols_of patch.now.of.shape) }
    ensures content { IfOk result (λ store. (i j : ℕ)
        → content_of store i j ≡ edited patch.now.edits.items (content_of (arc_value old)) i j) }
{
    match Arc::try_unwrap(old) {
        Ok(store) => edited(alloc, patch, store),
        Err(shared) => edited(alloc, patch, shared.try_clone()?),
    }
}

/// A store after edits, which are done in it.
fn edited(alloc: Global, patch: &Patch, store: Store) -> Result<Store, NoMemory>
    requires { IsStoreOf patch.now.of store }
    ensures rows { IfOk result (λ store. store.rows ≡ rows_of patch.now.of.shape) }
    ensures cols { IfOk result (λ store. store.cols ≡ cols_of patch.now.of.shape) }
    ensures content { IfOk result (λ after. (i j : ℕ)
        → content_of after i j ≡ edited patch.now.edits.items (content_of store) i j) }
{
    let mut store = store;
    let mut edits = patch.edits.clone()?;
    apply_edits(alloc, &mut store, &mut edits)?;
    Ok(store)
}

/// The rows in a range of what an operation leaves: what it computes, accumulated, masked and written back. All rows
/// may come as a bitmap.
fn computed_piece<P: VectorProducts>(
    products: &P,
    alloc: Global,
    recipe: &Recipe,
    computation: &Computation,
    stores: &Roles<&Store>,
    range: Range<u64>,
) -> Result<Block, NoMemory>
    requires recipe { recipe.now ≡ Recipe.Computed computation.now }
    requires inputs { AreInputs (known_by recipe.now) stores.now }
    requires range { range.start ≤ range.end }
    requires rows { range.end ≤ rows_of (makes recipe.now).shape }
    ensures piece { IfOk result (IsPieceOf recipe.now (maps_in stores.now) range.start range.end) }
    ensures form { IfOk result (HasForm recipe.now range.start range.end) }
{
    let accepted = &computation.accepted;
    let shape = accepted.out.c.shape;
    // It takes no memory, and stands for what the output has where nobody reads that.
    let unread = Store::new(alloc, shape.rows(), shape.cols());
    let task = taken(accepted, *stores, &unread);
    if range.start == 0
        && range.end == shape.rows()
        && let Some(bitmap) = task_bitmap(products, alloc, &task)?
    {
        let mut store = Store::from_bitmap(bitmap);
        store.settle(alloc);
        return Ok(Block::Whole(store));
    }
    let rows = task_rows(alloc, &task, range)?;
    Ok(Block::Rows(rows))
}

/// An operation on the stores that take its roles.
pub(crate) fn taken<'a>(
    accepted: &'a Accepted,
    stores: Roles<&'a Store>,
    unread: &'a Store,
) -> Task<'a>
    requires straight { IsStraight accepted.now.out.desc }
    requires inputs { AreInputs (known_by_role accepted.now.out accepted.now.operation) stores }
    requires rows { unread.now.rows ≡ rows_of accepted.now.out.c.shape }
    requires cols { unread.now.cols ≡ cols_of accepted.now.out.c.shape }
    requires empty { (i j : ℕ) → content_of unread.now i j ≡ None }
    ensures out { renamed_out object_of result.out ≡ out_with accepted.now.out (maps_in stores.entry) }
    ensures operation { renamed_operation object_of (operation_lent result.operation)
        ≡ operation_with accepted.now.operation (maps_in stores.entry) }
{
    let mask = match accepted.out.mask {
        Some(known) => Some(input(known, stores.mask)),
        None => None,
    };
    let out = Out {
        c: Input {
            signature: accepted.out.c,
            store: stores.old.unwrap_or(unread),
        },
        mask,
        accum: accepted.out.accum,
        desc: accepted.out.desc,
    };
    let operation = match &accepted.operation {
        Operation::Fill { value, region } => Lent::Fill {
            value: *value,
            region,
        },
        Operation::OfOne { computes, a } => Lent::OfOne {
            computes,
            a: input(*a, stores.first),
        },
        Operation::OfTwo { computes, a, b } => Lent::OfTwo {
            computes: *computes,
            a: input(*a, stores.first),
            b: input(*b, stores.second),
        },
    };
    Task { out, operation }
}

/// The store that takes a role that is read.
fn input(known: Signature, store: Option<&Store>) -> Input<'_>
    requires { Takes (Some known) (option_map (λ store. store.now) store) }
    ensures known { known_of result ≡ known }
    ensures map { object_of result ≡ object_with known (map_in (option_map (λ store. store.now) store.entry)) }
{
    let Some(store) = store else { unreachable!() };
    Input {
        signature: known,
        store,
    }
}
