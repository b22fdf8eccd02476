//! Pieces of work, taken and done, and what came of them.
ghost use Rattle.std.specs.Prelude.{◌≡◌, ◌↔◌, ◌<◌, ◌≤◌, IfOk, IfSome, MatchOption, None, OnErr, OnOk, Some, []};
ghost use Rattle.std.specs.Prelude.{slice_get, true};
ghost use Rattle.std.specs.Arc.{arc_value};
ghost use Rattle.std.specs.List.{All};
ghost use Rattle.std.specs.Option.{option_map};
ghost use Rattle.board.specs.Boards.{cuts_of, view_of};
ghost use Rattle.board.specs.Cuts.{IsPut, at_slot};
ghost use Rattle.board.specs.Looks.{SeenUnfinished, seen_of};
ghost use Rattle.board.specs.Pieces.{IsPieceFor, is_whole, maps_in, recipe_of};
ghost use Rattle.stages.specs.Progress.{is_running};
ghost use Rattle.board.specs.Stores.{stored_for};
ghost use Rattle.stages.specs.Tasks.{object_at};
ghost use Rattle.stages.specs.Views.{offered, state_of};
ghost use Rattle.calls.specs.declared.role.Role.{Role as AnyRole};
ghost use Rattle.calls.specs.Recipes.{known_by, known_of};
ghost use Rattle.desk.specs.Ends.{IsIdle, IsIdleBut, felled, felled_cut, handed_in, unfinished};
ghost use Rattle.desk.specs.Works.{AreUncut, IsWork, object_by};
ghost use Rattle.kernel.specs.Covers.{Covers, IsPartOf};
ghost use Rattle.kernel.specs.Pieces.{IsPieceOf, cols_in};
ghost use Rattle.kernel.specs.Takes.{Takes};
ghost use Rattle.model.specs.Object.{IsObject, Object, cols_of, rows_of};
ghost use Rattle.runner.specs.Tickets.{IsStoreFor};

use crate::picker::Picker;
use board::{Board, Look, Piece, Stores};
use calls::{Computation, Recipe};
use kernel::{
    Block, OneThread, VectorProducts, computed_over, eval_piece, eval_piece_by, join, patch_over,
};
use model::NoMemory;
use pieces::{Joining, join_blocks};
use runner::Failed;
use std::alloc::Global;
use std::ops::Range;
use std::sync::Arc;
use std::thread::Threads;
use store::Store;

/// A store of fewer entries is dropped in less time than its share is taken and given back by another thread.
const SOON_DROPPED: u64 = 1_024;

/// The store of a slot, or that none will come. None while it is still to come.
pub fn look<N: Drop>(board: &Board<N>, slot: u64) -> Option<Result<Arc<Store>, Failed>>
    ensures store { IfSome result (λ found. IfOk found
        (λ store. IsStoreFor (object_at (view_of board.now).tasks slot) (arc_value store))) }
    ensures to_come { (result ≡ None) ↔ (seen_of (state_of (view_of board.now) slot) ≡ SeenUnfinished) }
{
    match board.look(slot) {
        Look::Done(store) => Some(Arc::try_clone(store).map_err(|_| Failed)),
        Look::Failed | Look::Gone => Some(Err(Failed)),
        Look::Unfinished => None,
    }
}

/// A share of a slot's store, where it is there and takes long to drop, or has lists that are worth to be kept.
pub fn share_of<N: Drop>(board: &Board<N>, slot: u64) -> Option<Arc<Store>> {
    match board.look(slot) {
        Look::Done(store) if store.nvals() >= SOON_DROPPED => Arc::try_clone(store).ok(),
        _ => None,
    }
}

/// All of one of the tasks that can be done; None where none can. No task is cut. A task fails for which a share of a
/// store is refused.
pub fn take<P: Picker, N: Drop>(picker: &mut P, board: &mut Board<N>) -> Option<Piece>
    requires { AreUncut (cuts_of board.old) }
    ensures none { result ≡ None → offered (view_of board.new).tasks (view_of board.new).progress ≡ [] }
    ensures piece { IfSome result (IsPieceFor (view_of board.new).tasks) }
    ensures whole { IfSome result (λ piece. is_whole piece ≡ true) }
    ensures running { IfSome result (λ piece.
        is_running (slice_get (view_of board.new).progress piece.number) ≡ true) }
    ensures tasks { (view_of board.new).tasks ≡ (view_of board.old).tasks }
    ensures notes { (view_of board.new).notes ≡ (view_of board.old).notes }
    ensures more { unfinished (view_of board.new).progress ≤ unfinished (view_of board.old).progress }
    ensures uncut { AreUncut (cuts_of board.new) }
    ensures idle { IsIdle (view_of board.old).progress → MatchOption result
        (IsIdle (view_of board.new).progress)
        (λ piece. IsIdleBut piece.number (view_of board.new).progress) }
{
    // Each round but the last fails a task.
    loop {
        match board.take(picker.pick(), &[]) {
            Ok(taken) => return taken,
            Err(number) => {
                let _ = board.fail(number);
            }
        }
    }
}

/// The store of the object that a piece makes which is all of its task. What it was made of stays in the piece, but for
/// a store that was edited, or that nobody shared and that was written in place. A product of a vector and a matrix
/// that goes along bitmaps is made by `products`.
pub fn made_of<V: VectorProducts>(
    products: &V,
    alloc: Global,
    piece: &mut Piece,
) -> Result<Arc<Store>, NoMemory>
    requires work { IsWork piece.old }
    requires whole { is_whole piece.old ≡ true }
    ensures { IfOk result (λ store. IsStoreFor (object_by piece.old) (arc_value store)) }
{
    let block = block_by(products, alloc, piece)?;
    Ok(Arc::new(alloc, join(alloc, piece.recipe.get(), block))?)
}

/// The block of a piece that is some rows of its task. The recipe stays in the piece.
pub fn part_of(alloc: Global, piece: &mut Piece) -> Result<Block, NoMemory>
    requires { IsWork piece.old }
    ensures block { IfOk result (IsPartOf (cols_of (object_by piece.old).shape) (object_by piece.old).content) }
    ensures recipe { piece.new.recipe ≡ piece.old.recipe }
{
    block_by(&OneThread, alloc, piece)
}

/// The store of what a recipe makes, of the blocks of all pieces, in the order of their rows. Where their lists are put
/// together, it takes time and memory for their entries, and a second thread where they are many.
pub fn joined_of(
    rt: &impl Threads,
    alloc: Global,
    joining: Joining,
    recipe: &Recipe,
    blocks: Vec<Block>,
) -> Result<Arc<Store>, NoMemory>
    requires covers { Covers 0 (rows_of (known_of recipe.now).shape) blocks.items }
    requires cols { All (λ b. cols_in b ≡ cols_of (known_of recipe.now).shape) blocks.items }
    ensures { IfOk result (λ store. (o : Object) → IsObject o → o.shape ≡ (known_of recipe.now).shape
        → All (IsPartOf (cols_of o.shape) o.content) blocks.items → IsStoreFor o (arc_value store)) }
{
    let store = join_blocks(rt, alloc, joining, recipe, blocks)?;
    Ok(Arc::new(alloc, store)?)
}

/// Does a piece that was taken and is all of its task, and hands in what it makes; where there is no memory for it, its
/// slot fails, and the answer says so. What the work was made of stays in the piece, as far as `made_of` leaves it
/// there. What goes along bitmaps is made by `products`.
pub fn work<V: VectorProducts, N: Drop>(
    products: &V,
    alloc: Global,
    board: &mut Board<N>,
    piece: &mut Piece,
) -> Result<(), NoMemory>
    requires piece { IsPieceFor (view_of board.old).tasks piece.old }
    requires whole { is_whole piece.old ≡ true }
    ensures made { OnOk result (view_of board.new
        ≡ handed_in (view_of board.old) (at_slot (cuts_of board.old) piece.old.number) piece.old.number) }
    ensures made_cuts { OnOk result (cuts_of board.new ≡ cuts_of board.old) }
    ensures failed { OnErr result (view_of board.new ≡ felled (view_of board.old) piece.old.number) }
    ensures failed_cuts { OnErr result (IsPut (cuts_of board.old) piece.old.number (felled_cut (view_of board.old)
        (at_slot (cuts_of board.old) piece.old.number) piece.old.number) (cuts_of board.new)) }
    ensures tasks { (view_of board.new).tasks ≡ (view_of board.old).tasks }
    ensures notes { (view_of board.new).notes ≡ (view_of board.old).notes }
    ensures fewer { is_running (slice_get (view_of board.old).progress piece.old.number) ≡ true
        → at_slot (cuts_of board.old) piece.old.number ≡ None
        → unfinished (view_of board.new).progress < unfinished (view_of board.old).progress }
    ensures uncut { AreUncut (cuts_of board.old) → AreUncut (cuts_of board.new) }
{
    let number = piece.number;
    match made_of(products, alloc, piece) {
        Ok(store) => {
            let _ = board.hand_in(number, store);
            Ok(())
        }
        Err(NoMemory) => {
            let _ = board.fail(number);
            Err(NoMemory)
        }
    }
}

/// The block of a piece's rows. The recipe stays in the piece.
fn block_by<V: VectorProducts>(
    products: &V,
    alloc: Global,
    piece: &mut Piece,
) -> Result<Block, NoMemory>
    requires { IsWork piece.old }
    ensures block { IfOk result (IsPieceOf (recipe_of piece.old.recipe) (maps_in piece.old.inputs)
        piece.old.rows.start piece.old.rows.end) }
    ensures recipe { piece.new.recipe ≡ piece.old.recipe }
{
    let Piece {
        rows,
        recipe,
        inputs,
        ..
    } = piece;
    block_of(products, alloc, recipe.get(), inputs, rows.start..rows.end)
}

/// What a recipe gives of stores. The edits of a patch are done in its store, where nobody shares that, and so what an
/// operation writes.
fn block_of<V: VectorProducts>(
    products: &V,
    alloc: Global,
    recipe: &Recipe,
    inputs: &mut Stores,
    rows: Range<u64>,
) -> Result<Block, NoMemory>
    requires takes { (role : AnyRole) → Takes (known_by recipe.now role) (stored_for inputs.now role) }
    requires range { rows.start ≤ rows.end }
    requires rows { rows.end ≤ rows_of (known_of recipe.now).shape }
    ensures { IfOk result (IsPieceOf recipe.now (maps_in inputs.entry.now) rows.start rows.end) }
{
    match recipe {
        Recipe::Patch(patch) => {
            let Some(old) = inputs.old.take() else {
                unreachable!()
            };
            Ok(Block::Whole(patch_over(alloc, patch, old)?))
        }
        Recipe::Computed(computation) => {
            let of = recipe.signature();
            if rows.start == 0 && rows.end == of.shape.rows() {
                return computed_block(products, alloc, recipe, computation, inputs);
            }
            eval_piece(alloc, recipe, &inputs.lent(), rows)
        }
        recipe => eval_piece(alloc, recipe, &inputs.lent(), rows),
    }
}

/// All that an operation gives of stores. Where nobody shares what its output had, that is taken over.
fn computed_block<V: VectorProducts>(
    products: &V,
    alloc: Global,
    recipe: &Recipe,
    computation: &Computation,
    inputs: &mut Stores,
) -> Result<Block, NoMemory>
    requires recipe { recipe.now ≡ Recipe.Computed computation.now }
    requires takes { (role : AnyRole) → Takes (known_by recipe.now role) (stored_for inputs.now role) }
    ensures { IfOk result
        (IsPieceOf recipe.now (maps_in inputs.entry.now) 0 (rows_of (known_of recipe.now).shape)) }
{
    match take_unshared(&mut inputs.old) {
        Some(old) => {
            let store = computed_over(products, alloc, &computation.accepted, old, &inputs.lent())?;
            Ok(Block::Whole(store))
        }
        None => {
            let rows = recipe.signature().shape.rows();
            eval_piece_by(products, alloc, recipe, &inputs.lent(), 0..rows)
        }
    }
}

/// A store that nobody shares, out of its place.
fn take_unshared(place: &mut Option<Arc<Store>>) -> Option<Store>
    ensures taken { IfSome result (λ store. option_map (λ s. arc_value s) place.old ≡ Some store) }
    ensures kept { result ≡ None → option_map (λ s. arc_value s) place.new ≡ option_map (λ s. arc_value s) place.old }
{
    let store = place.take()?;
    match Arc::try_unwrap(store) {
        Ok(store) => Some(store),
        Err(shared) => {
            *place = Some(shared);
            None
        }
    }
}
