//! What never changes of a slot.
ghost use Rattle.std.specs.Prelude.{◌≡◌};
ghost use Rattle.calls.specs.Recipes.{known_of};

use crate::inputs::Inputs;
use calls::{Recipe, Signature};
use std::snapshot::Snapshot;

/// A task. Its recipe goes to whoever takes it; what it was stays known.
#[derive(Drop)]
pub struct Slot<N> {
    /// Its recipe, as it was when it was issued; proofs alone know it.
    pub was: Snapshot<Recipe>,
    /// What is known of the object that it makes.
    pub of: Signature,
    /// The slots that it reads.
    pub inputs: Inputs,
    /// By which whoever issued it knows it again.
    pub note: N,
    ghost known: { of ≡ known_of was.value },
}

impl<N> Slot<N> {
    /// The slot of a task that is issued.
    pub fn new(note: N, recipe: &Recipe, inputs: Inputs) -> Slot<N>
        ensures recipe { result.was.value ≡ recipe.now }
        ensures inputs { result.inputs ≡ inputs }
        ensures note { result.note ≡ note }
    {
        Slot {
            was: Snapshot::of(recipe),
            of: recipe.signature(),
            inputs,
            note,
        }
    }
}
