//! How much work a task is, in entries that are read.
use board::Piece;
use calls::Recipe;
use std::sync::Arc;
use store::Store;

/// What any task costs.
const LEAST: u64 = 64;

/// The work of what a recipe has of its own.
pub fn work_of(recipe: &Recipe) -> u64 {
    match recipe {
        Recipe::Patch(patch) => LEAST.saturating_add(patch.edits.len() as u64),
        _ => LEAST,
    }
}

/// The work of the task of a piece that was taken.
pub fn work_in(piece: &Piece) -> u64 {
    let inputs = &piece.inputs;
    work_of(piece.recipe.get())
        .saturating_add(entries(&inputs.old))
        .saturating_add(entries(&inputs.mask))
        .saturating_add(entries(&inputs.first))
        .saturating_add(entries(&inputs.second))
}

fn entries(store: &Option<Arc<Store>>) -> u64 {
    match store {
        Some(store) => store.nvals(),
        None => 0,
    }
}
