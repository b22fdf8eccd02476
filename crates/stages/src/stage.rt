//! How far slots have come, with what each has then.
ghost use Rattle.std.specs.Prelude.{◌≡◌, None, Some, false, map, slice_get, slice_set, true};
ghost use Rattle.std.specs.Arc.{arc_value};
ghost use Rattle.std.specs.Option.{option_and_then, option_map, option_map_or};
ghost use Rattle.stages.specs.Places.{each, passes};
ghost use Rattle.stages.specs.Progress.{is_failed, is_joining, is_made, is_running, is_unfinished, is_untaken};
ghost use Rattle.stages.specs.Stages.{has_store, progress_of, recipe_in, stored_in};

use crate::inputs::Inputs;
use calls::Recipe;
use std::mem;
use std::sync::Arc;
use store::Store;

/// How far a slot has come.
#[derive(Drop)]
pub enum Stage {
    /// Nobody took its task.
    Untaken(Recipe),
    /// Its task, or at least a piece of it, is out.
    Running,
    /// All of its blocks were given, and are to be joined.
    Joining,
    /// Its store is there.
    Done(Arc<Store>),
    /// Its store was there, and nobody needed it any more.
    Gone,
    /// Its store was there, and went to the one task that still read it.
    Moved,
    /// Its store will never be there.
    Failed,
}

/// The store of a slot.
pub fn store_of(stages: &[Stage], number: u64) -> Option<&Arc<Store>>
    ensures { option_map (λ s. arc_value s.now) result ≡ option_and_then stored_in (slice_get stages.now number) }
{
    match stages.get(number as usize) {
        Some(Stage::Done(store)) => Some(store),
        _ => None,
    }
}

/// Whether a slot's task is out.
pub fn is_running(stages: &[Stage], number: u64) -> bool
    ensures { result ≡ is_running (slice_get (map progress_of stages.now) number) }
{
    match stages.get(number as usize) {
        Some(stage) => matches!(stage, Stage::Running),
        None => false,
    }
}

/// Whether the blocks of a slot's task are being joined.
pub fn is_joining(stages: &[Stage], number: u64) -> bool
    ensures { result ≡ is_joining (slice_get (map progress_of stages.now) number) }
{
    match stages.get(number as usize) {
        Some(stage) => matches!(stage, Stage::Joining),
        None => false,
    }
}

/// Whether nobody took a slot's task.
pub fn is_untaken(stages: &[Stage], number: u64) -> bool
    ensures { result ≡ is_untaken (slice_get (map progress_of stages.now) number) }
{
    match stages.get(number as usize) {
        Some(stage) => matches!(stage, Stage::Untaken(_)),
        None => false,
    }
}

/// Whether a slot's store was made.
pub fn is_made(stages: &[Stage], number: u64) -> bool
    ensures { result ≡ is_made (slice_get (map progress_of stages.now) number) }
{
    match stages.get(number as usize) {
        Some(stage) => matches!(stage, Stage::Done(_) | Stage::Gone | Stage::Moved),
        None => false,
    }
}

/// Whether a slot's store will never be there.
pub fn is_failed(stages: &[Stage], number: u64) -> bool
    ensures { result ≡ is_failed (slice_get (map progress_of stages.now) number) }
{
    match stages.get(number as usize) {
        Some(stage) => matches!(stage, Stage::Failed),
        None => false,
    }
}

/// Whether the store of a slot is to come.
pub fn is_unfinished(stages: &[Stage], number: u64) -> bool
    ensures { result ≡ option_map_or is_unfinished (slice_get (map progress_of stages.now) number) false }
{
    match stages.get(number as usize) {
        Some(stage) => matches!(stage, Stage::Untaken(_) | Stage::Running | Stage::Joining),
        None => false,
    }
}

/// Whether the store of a slot is there.
pub fn is_done(stages: &[Stage], number: u64) -> bool
    ensures { result ≡ has_store (slice_get stages.now number) }
{
    match stages.get(number as usize) {
        Some(stage) => matches!(stage, Stage::Done(_)),
        None => false,
    }
}

/// Whether each of these was made.
pub fn are_made(stages: &[Stage], inputs: &Inputs) -> bool
    ensures { result ≡ each (λ i. is_made (slice_get (map progress_of stages.now) i)) inputs.now }
{
    was_made(stages, inputs.old())
        && was_made(stages, inputs.mask())
        && was_made(stages, inputs.first())
        && was_made(stages, inputs.second())
}

fn was_made(stages: &[Stage], input: Option<u64>) -> bool
    ensures { result ≡ passes (λ i. is_made (slice_get (map progress_of stages.now) i)) input }
{
    match input {
        Some(number) => is_made(stages, number),
        None => true,
    }
}

/// One slot comes to another stage. What it had goes. It is inlined, since most stages have little in them, and one
/// that is handed on is copied with the fields of all.
#[inline(always)]
pub fn put(stages: &mut Vec<Stage>, number: u64, stage: Stage)
    ensures { stages.new.items ≡ slice_set stages.old.items number stage }
{
    if let Some(place) = stages.get_mut(number as usize) {
        *place = stage;
    }
}

/// The recipe of a slot that nobody took: it runs.
pub fn take_recipe(stages: &mut Vec<Stage>, number: u64) -> Recipe
    requires { is_untaken (slice_get (map progress_of stages.old.items) number) ≡ true }
    ensures stages { stages.new.items ≡ slice_set stages.old.items number Stage.Running }
    ensures recipe { option_and_then recipe_in (slice_get stages.old.items number) ≡ Some result }
{
    let Some(place) = stages.get_mut(number as usize) else {
        unreachable!()
    };
    match mem::replace(place, Stage::Running) {
        Stage::Untaken(recipe) => recipe,
        _ => unreachable!(),
    }
}

/// The store of a slot that is done: it is moved out.
pub fn take_store(stages: &mut Vec<Stage>, number: u64) -> Arc<Store>
    requires { has_store (slice_get stages.old.items number) ≡ true }
    ensures stages { stages.new.items ≡ slice_set stages.old.items number Stage.Moved }
    ensures store { option_and_then stored_in (slice_get stages.old.items number) ≡ Some (arc_value result) }
{
    let Some(place) = stages.get_mut(number as usize) else {
        unreachable!()
    };
    match mem::replace(place, Stage::Moved) {
        Stage::Done(store) => store,
        _ => unreachable!(),
    }
}
