//! An object as it is kept.
ghost use Rattle.std.proofs.Props.{props};
ghost use Rattle.std.specs.Prelude.{◌≡◌};
ghost use Rattle.std.specs.List.{All};
ghost use Rattle.algebra.specs.Value.{IsWordOf};
ghost use Rattle.calls.specs.Stores.{AreInside};
ghost use Rattle.model.specs.Object.{cols_of, rows_of};
ghost use Rattle.objects.specs.Values.{IsValueOf};
ghost use Rattle.patch.specs.Edits.{set_entry};

use crate::value::Value;
use calls::Signature;
use model::{NoMemory, Status};
use patch::Edit;
use runner::{Failed, Runner};

/// An object: what is known of it, what is there of its value, and the edits that wait on it.
#[derive(Drop)]
pub struct Kept<R: Runner> {
    pub of: Signature,
    pub value: Value<R::Ticket>,
    pub edits: Vec<Edit>,
    pub ghost sound: { IsValueOf R.object_of of value } by { Prim.hlevel props },
    pub ghost inside: { AreInside (rows_of of.shape) (cols_of of.shape) edits.items },
    pub ghost words: { All (λ e. IsWordOf of.domain (set_entry e).word) edits.items },
}

/// Why an object's value isn't there.
#[derive(Debug, Clone, Copy)]
pub enum Refusal {
    /// Memory was refused now: the value can be asked for again.
    NoMemory,
    /// Memory was refused to what makes it.
    Failed,
}

impl From<NoMemory> for Refusal {
    ghost use Rattle.objects.specs.declared.kept.Refusal.TheVariants as refusal;

    ghost from_gives = { λ _ why. why ≡ refusal.NoMemory };

    fn from(_refused: NoMemory) -> Refusal {
        Refusal::NoMemory
    }
}

impl From<Failed> for Refusal {
    ghost use Rattle.objects.specs.declared.kept.Refusal.TheVariants as refusal;

    ghost from_gives = { λ _ why. why ≡ refusal.Failed };

    fn from(_failed: Failed) -> Refusal {
        Refusal::Failed
    }
}

impl From<Refusal> for Status {
    ghost use Rattle.objects.specs.Refusals.{status_of};

    ghost from_gives = { λ refusal status. status ≡ status_of refusal };

    fn from(refusal: Refusal) -> Status {
        match refusal {
            Refusal::NoMemory => Status::OutOfMemory,
            Refusal::Failed => Status::InvalidObject,
        }
    }
}
