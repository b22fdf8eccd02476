//! The inputs of slots.
ghost use Rattle.std.specs.Prelude.{◌≡◌, nat_lt, true};
ghost use Rattle.stages.specs.Inputs.{slot_in};
ghost use Rattle.stages.specs.Places.{each};
ghost use Rattle.calls.specs.Roles.{no_roles};

use calls::{Recipe, Role, Roles};
use kernel::needs_joined;
use std::marker::Model;

/// The word that stands for no slot.
const NONE: u64 = u64::MAX;

/// The slots that take roles, each in one word.
#[derive(Drop)]
pub struct Inputs {
    old: u64,
    mask: u64,
    first: u64,
    second: u64,
}

impl Model for Inputs {
    ghost use Rattle.std.specs.Prelude.{ℕ};
    ghost use Rattle.calls.specs.declared.role.Roles.{Roles};
    ghost use Rattle.stages.specs.Inputs.{slot_in};

    ghost Value = { Roles ℕ };

    ghost view = { λ i. record {
      old = slot_in i.old;
      mask = slot_in i.mask;
      first = slot_in i.first;
      second = slot_in i.second;
    } };
}

impl Inputs {
    /// The slots that take these roles.
    pub fn new(roles: &Roles<u64>) -> Inputs
        requires { each (λ i. nat_lt i 18446744073709551615) roles.now ≡ true }
        ensures { result ≡ roles.now }
    {
        Inputs {
            old: roles.old.unwrap_or(NONE),
            mask: roles.mask.unwrap_or(NONE),
            first: roles.first.unwrap_or(NONE),
            second: roles.second.unwrap_or(NONE),
        }
    }

    /// Those of no role.
    pub fn none() -> Inputs
        ensures { result ≡ no_roles }
    {
        Inputs {
            old: NONE,
            mask: NONE,
            first: NONE,
            second: NONE,
        }
    }

    /// The slots, in their roles.
    pub fn roles(&self) -> Roles<u64>
        ensures { result ≡ self.now }
    {
        Roles {
            old: self.old(),
            mask: self.mask(),
            first: self.first(),
            second: self.second(),
        }
    }

    /// Whether a recipe of these inputs needs the lists of one that a slot is in one.
    pub fn need_joined(&self, recipe: &Recipe, number: u64) -> bool {
        let is_needed = |input: Option<u64>, role| input == Some(number)
            && needs_joined(recipe, role);
        is_needed(self.old(), Role::Old)
            || is_needed(self.mask(), Role::Mask)
            || is_needed(self.first(), Role::First)
            || is_needed(self.second(), Role::Second)
    }

    /// The slot of the old output.
    pub fn old(&self) -> Option<u64>
        ensures { result ≡ self.now.old }
    {
        slot_in(self.old)
    }

    /// The slot of the mask.
    pub fn mask(&self) -> Option<u64>
        ensures { result ≡ self.now.mask }
    {
        slot_in(self.mask)
    }

    /// The slot of the first input.
    pub fn first(&self) -> Option<u64>
        ensures { result ≡ self.now.first }
    {
        slot_in(self.first)
    }

    /// The slot of the second input.
    pub fn second(&self) -> Option<u64>
        ensures { result ≡ self.now.second }
    {
        slot_in(self.second)
    }
}

/// The slot that a word stands for.
fn slot_in(word: u64) -> Option<u64>
    ensures { result ≡ slot_in word }
{
    if word == NONE { None } else { Some(word) }
}
