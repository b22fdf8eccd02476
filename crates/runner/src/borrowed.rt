//! Runners that are borrowed.

use crate::runner::{Failed, Runner};
use calls::{Recipe, Roles};
use model::NoMemory;
use std::sync::Arc;
use store::Store;

impl<R: Runner> Runner for &mut R {
    type Ticket = R::Ticket;

    ghost object_of = { R.object_of };

    ghost epoch = { λ r. R.epoch r.now };

    ghost born = { R.born };

    fn submit(&mut self, recipe: Recipe, inputs: Roles<&R::Ticket>) -> Result<R::Ticket, NoMemory> {
        (**self).submit(recipe, inputs)
    }

    fn fetch(&mut self, ticket: &R::Ticket) -> Result<Arc<Store>, Failed> {
        (**self).fetch(ticket)
    }

    fn hold(&mut self, ticket: &R::Ticket) -> Result<R::Ticket, NoMemory> {
        (**self).hold(ticket)
    }

    fn let_go(&mut self, ticket: R::Ticket) {
        (**self).let_go(ticket);
    }

    fn renew(&mut self) -> Result<(), NoMemory> {
        (**self).renew()
    }
}
