//! Whether slots take the roles of recipes.
ghost use Rattle.std.specs.Prelude.{◌≡◌, ◌↔◌, IsTrue, MatchBool, Some, map};
ghost use Rattle.std.specs.Option.{option_map};
ghost use Rattle.calls.specs.Recipes.{inputs_of};
ghost use Rattle.calls.specs.Roles.{lent_roles};
ghost use Rattle.board.specs.Fits.{AreThere, IsThere};
ghost use Rattle.stages.specs.Slots.{task_of};
ghost use Rattle.stages.specs.Tasks.{known_at};

use crate::looking::is_gone;
use calls::{Recipe, Roles, Signature, lent_by_role};
use stages::{Slot, Stage};

/// What is known of the inputs of a recipe.
#[inline(always)]
fn inputs_of(recipe: &Recipe) -> Roles<&Signature>
    ensures { lent_roles result ≡ inputs_of recipe.now }
{
    match recipe {
        Recipe::New(_) => Roles::none(),
        Recipe::Given(_) => Roles::none(),
        Recipe::Patch(patch) => Roles::of_old(&patch.of),
        Recipe::Resized(resize) => Roles::of_old(&resize.of),
        Recipe::Transposed(turn) => Roles {
            first: Some(&turn.of),
            ..Roles::none()
        },
        Recipe::Computed(computation) => {
            let accepted = &computation.accepted;
            lent_by_role(&accepted.out, &accepted.operation)
        }
    }
}

/// Whether slots take the roles that a recipe reads, and no others.
pub(crate) fn are_there<N>(
    slots: &[Slot<N>],
    stages: &[Stage],
    recipe: &Recipe,
    inputs: &Roles<u64>,
) -> bool
    ensures { MatchBool result (AreThere (map task_of slots.now) stages.now recipe.now inputs.now)
        (AreThere (map task_of slots.now) stages.now recipe.now inputs.now → ⊥) }
{
    let known = inputs_of(recipe);
    if !is_there(slots, stages, known.old, inputs.old) {
        return false;
    }
    if !is_there(slots, stages, known.mask, inputs.mask) {
        return false;
    }
    if !is_there(slots, stages, known.first, inputs.first) {
        return false;
    }
    is_there(slots, stages, known.second, inputs.second)
}

/// Whether a role that is read has a slot with such an object, which isn't gone, and no other role has one.
fn is_there<N>(
    slots: &[Slot<N>],
    stages: &[Stage],
    known: Option<&Signature>,
    input: Option<u64>,
) -> bool
    ensures { IsTrue result ↔ IsThere (map task_of slots.now) stages.now
        (option_map (λ known. known.now) known.entry) input }
{
    match (known, input) {
        (None, None) => true,
        (Some(known), Some(number)) => is_of(slots, number, known) && !is_gone(stages, number),
        _ => false,
    }
}

fn is_of<N>(slots: &[Slot<N>], number: u64, known: &Signature) -> bool
    ensures { IsTrue result ↔ (known_at (map task_of slots.now) number ≡ Some known.now) }
{
    match signature_of(slots, number) {
        Some(of) => *of == *known,
        None => false,
    }
}

/// What is known of what the task of a slot makes.
fn signature_of<N>(slots: &[Slot<N>], number: u64) -> Option<&Signature>
    ensures { option_map (λ of. of.now) result ≡ known_at (map task_of slots.now) number }
{
    match slots.get(number as usize) {
        Some(slot) => Some(&slot.of),
        None => None,
    }
}
