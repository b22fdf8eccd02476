//! Runners.
ghost use Rattle.std.specs.Prelude.{◌≡◌, ◌+◌, ℕ, IfOk, OnErr, OnOk};
ghost use Rattle.std.specs.Arc.{arc_value};
ghost use Rattle.model.specs.Object.{IsObject, Object};
ghost use Rattle.runner.specs.Tickets.{Fit, IsStoreFor, made_by};

use calls::{Recipe, Roles};
use model::NoMemory;
use std::sync::Arc;
use store::Store;

/// No store comes of what was submitted: memory was refused to it or to what it rests on, or the runner was emptied.
#[derive(Debug, Clone, Copy)]
pub struct Failed;

/// Does what recipes say, when it likes, in any order that their inputs permit. A ticket stands for one object, from
/// when it is given on, whether or not the object's store is there yet.
pub trait Runner {
    type Ticket: Drop;

    // The object that a ticket stands for.
    ghost object_of: { Self.Ticket → Object };

    // How often the runner was emptied, and how often it had been when it gave a ticket.
    ghost epoch: { Self → ℕ };

    ghost born: { Self.Ticket → ℕ };

    /// Takes a recipe on, and gives a ticket for what it makes of the objects that the tickets of its inputs stand
    /// for, which take the roles that it reads and no others. Of a refused recipe nothing is done.
    fn submit(
        &mut self,
        recipe: Recipe,
        inputs: Roles<&Self::Ticket>,
    ) -> Result<Self::Ticket, NoMemory>
        requires fits { Fit object_of recipe inputs }
        ensures object { IfOk result (λ t. object_of t ≡ made_by object_of recipe inputs.entry) }
        ensures is_object { IfOk result (λ t. IsObject (object_of t)) }
        ensures born { IfOk result (λ t. born t ≡ epoch self.new) }
        ensures epoch { epoch self.new ≡ epoch self.old };

    /// The store of the object that a ticket stands for, once it is there. A ticket that was given before the runner
    /// was last emptied fetches none.
    fn fetch(&mut self, ticket: &Self::Ticket) -> Result<Arc<Store>, Failed>
        ensures store { IfOk result (λ store. IsStoreFor (object_of ticket.now) (arc_value store)) }
        ensures current { OnOk result (born ticket.now ≡ epoch self.old) }
        ensures epoch { epoch self.new ≡ epoch self.old };

    /// Another ticket for the same object.
    fn hold(&mut self, ticket: &Self::Ticket) -> Result<Self::Ticket, NoMemory>
        ensures object { IfOk result (λ t. object_of t ≡ object_of ticket.now) }
        ensures born { IfOk result (λ t. born t ≡ born ticket.now) }
        ensures epoch { epoch self.new ≡ epoch self.old };

    /// Takes a ticket back, of whose object nobody asks by it again.
    fn let_go(&mut self, ticket: Self::Ticket)
        ensures epoch { epoch self.new ≡ epoch self.old };

    /// Empties the runner: the tickets that it gave stand for their objects still, but fetch none.
    fn renew(&mut self) -> Result<(), NoMemory>
        ensures ok { OnOk result (epoch self.new ≡ epoch self.old + 1) }
        ensures err { OnErr result (epoch self.new ≡ epoch self.old) };
}
