//! What was submitted, and what it was made of.
use calls::Recipe;
use std::marker::Model;
use std::snapshot::Snapshot;

/// A recipe, and the entries of its inputs. It has no bytes. Contracts see a number that is greater than those of the
/// inputs, since entries are made of earlier ones alone, and the object that was made, as data.
#[derive(Drop)]
#[cycle(entry)]
pub struct Entry {
    pub(crate) recipe: Snapshot<Recipe>,
    pub(crate) inputs: Snapshot<Inputs>,
}

impl Model for Entry {
    ghost use Rattle.std.specs.Prelude.{ℕ};
    ghost use Rattle.std.proofs.Common.{arith};
    ghost use Rattle.history.specs.declared.made.Made.{Made};
    ghost use Rattle.journal.specs.Entries.{told};

    ghost Value = { ℕ × Made };

    ghost view = { λ e. told e.recipe.value e.inputs.value };

    ghost size = { λ v. v.0 };

    ghost size_decreases = { λ a h. Prim.grind (arith) };
}

/// The entries that take roles.
#[derive(Drop)]
#[cycle(entry)]
pub(crate) struct Inputs {
    pub(crate) old: Input,
    pub(crate) mask: Input,
    pub(crate) first: Input,
    pub(crate) second: Input,
}

impl Model for Inputs {
    ghost use Rattle.std.specs.Prelude.{ℕ};
    ghost use Rattle.std.proofs.Common.{arith};
    ghost use Rattle.calls.specs.declared.role.Roles.{Roles};
    ghost use Rattle.history.specs.declared.made.Made.{Made};
    ghost use Rattle.journal.specs.Entries.{depth};
    ghost use Rattle.journal.specs.Inputs.{by_role};

    ghost Value = { Roles (ℕ × Made) };

    ghost view = { λ i. by_role i.old i.mask i.first i.second };

    ghost size = { depth };

    ghost size_decreases = { λ a h. Prim.grind (arith) };
}

/// The entry that takes a role, where one does.
#[derive(Drop)]
#[cycle(entry)]
pub(crate) enum Input {
    Absent,
    There(Snapshot<Entry>),
}
