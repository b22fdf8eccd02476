//! The runner that does everything at once.
ghost use Rattle.std.specs.Prelude.{◌≡◌, IfOk};
ghost use Rattle.std.specs.Arc.{arc_value};
ghost use Rattle.std.specs.Option.{option_map};
ghost use Rattle.calls.specs.declared.role.Role.{Role as AnyRole};
ghost use Rattle.calls.specs.Roles.{role_of};
ghost use Rattle.kernel.specs.Takes.{lent_in};
ghost use Rattle.runner.specs.AtOnce.{object_in};
ghost use Rattle.runner.specs.Tickets.{Fit, made_by};

use crate::runner::{Failed, Runner};
use crate::ticket::Ticket;
use calls::{Given, Recipe, Roles};
use kernel::evaluate;
use model::NoMemory;
use std::alloc::Global;
use std::sync::Arc;
use store::Store;

/// Does each recipe when it is submitted.
#[derive(Drop)]
pub struct AtOnce {
    alloc: Global,
    pub epoch: u64,
}

impl AtOnce {
    /// A runner that has nothing to do. It takes no memory.
    pub fn new(alloc: Global) -> AtOnce
        ensures { result.epoch ≡ 0 }
    {
        AtOnce { alloc, epoch: 0 }
    }
}

impl Runner for AtOnce {
    type Ticket = Ticket;

    ghost object_of = { object_in };

    ghost epoch = { λ r. r.epoch };

    ghost born = { λ t. t.epoch };

    fn submit(&mut self, recipe: Recipe, inputs: Roles<&Ticket>) -> Result<Ticket, NoMemory> {
        match recipe {
            // Its store is shared, and nothing is copied.
            Recipe::Given(given) => {
                let Given { of, store, .. } = Box::into_inner(given);
                let epoch = self.epoch;
                Ok(Ticket { of, store, epoch })
            }
            recipe => evaluated(self.alloc, self.epoch, &recipe, &inputs),
        }
    }

    fn fetch(&mut self, ticket: &Ticket) -> Result<Arc<Store>, Failed> {
        if ticket.epoch != self.epoch {
            return Err(Failed);
        }
        Arc::try_clone(&ticket.store).map_err(|_| Failed)
    }

    fn hold(&mut self, ticket: &Ticket) -> Result<Ticket, NoMemory> {
        let store = Arc::try_clone(&ticket.store).map_err(|_| NoMemory)?;
        Ok(Ticket {
            of: ticket.of,
            store,
            epoch: ticket.epoch,
        })
    }

    fn let_go(&mut self, ticket: Ticket) {
        drop(ticket);
    }

    fn renew(&mut self) -> Result<(), NoMemory> {
        self.epoch = self.epoch.checked_add(1).ok_or(NoMemory)?;
        Ok(())
    }
}

/// A ticket for what a recipe makes of the objects of tickets, whose store is made now.
fn evaluated(
    alloc: Global,
    epoch: u64,
    recipe: &Recipe,
    tickets: &Roles<&Ticket>,
) -> Result<Ticket, NoMemory>
    requires { Fit object_in recipe.now tickets.now }
    ensures object { IfOk result (λ t. object_in t ≡ made_by object_in recipe.now tickets.now) }
    ensures epoch { IfOk result (λ t. t.epoch ≡ epoch) }
{
    let of = recipe.signature();
    let store = evaluate(alloc, recipe, &stores_of(tickets))?;
    let store = Arc::new(alloc, store)?;
    Ok(Ticket { of, store, epoch })
}

/// The stores of tickets, in the same roles.
fn stores_of<'a>(tickets: &Roles<&'a Ticket>) -> Roles<&'a Store>
    ensures { (role : AnyRole) → lent_in result role
        ≡ option_map (λ t. arc_value t.now.store) (role_of tickets.now role) }
{
    Roles {
        old: store_of(tickets.old),
        mask: store_of(tickets.mask),
        first: store_of(tickets.first),
        second: store_of(tickets.second),
    }
}

/// The store of a ticket, where there is one.
fn store_of(ticket: Option<&Ticket>) -> Option<&Store>
    ensures { option_map (λ store. store.now) result ≡ option_map (λ t. arc_value t.now.store) ticket.entry }
{
    Some(&*ticket?.store)
}
