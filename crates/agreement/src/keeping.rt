//! A runner that keeps a ticket for each recipe that it was given, and asks for the stores of all of them.
ghost use Rattle.std.specs.Prelude.{◌≡◌};

use calls::{Recipe, Roles};
use model::NoMemory;
use runner::{Failed, Runner};
use std::alloc::Global;
use std::mem;
use std::sync::Arc;
use store::Store;

/// Hands all on to another runner. Before that is emptied, it asks for the store of each recipe, also of those for
/// which nobody asks, and counts what failed.
#[derive(Drop)]
pub struct Keeping<R: Runner + Drop> {
    alloc: Global,
    runner: R,
    kept: Vec<R::Ticket>,
    /// How many recipes failed.
    pub failed: u64,
}

impl<R: Runner + Drop> Keeping<R> {
    /// Over a runner that was given nothing yet.
    pub fn new(alloc: Global, runner: R) -> Keeping<R> {
        Keeping {
            alloc,
            runner,
            kept: Vec::new(alloc),
            failed: 0,
        }
    }

    /// Asks for all stores, and gives their tickets back.
    pub fn settle(&mut self)
        ensures { R.epoch self.new.runner ≡ R.epoch self.old.runner }
    {
        let kept = mem::replace(&mut self.kept, Vec::new(self.alloc));
        for ticket in kept {
            if self.runner.fetch(&ticket).is_err() {
                self.failed = self.failed.saturating_add(1);
            }
            self.runner.let_go(ticket);
        }
    }
}

impl<R: Runner + Drop> Runner for Keeping<R> {
    type Ticket = R::Ticket;

    ghost object_of = { R.object_of };

    ghost epoch = { λ k. R.epoch k.runner };

    ghost born = { R.born };

    fn submit(&mut self, recipe: Recipe, inputs: Roles<&R::Ticket>) -> Result<R::Ticket, NoMemory> {
        let ticket = self.runner.submit(recipe, inputs)?;
        let kept = self.runner.hold(&ticket)?;
        self.kept.push(kept)?;
        Ok(ticket)
    }

    fn fetch(&mut self, ticket: &R::Ticket) -> Result<Arc<Store>, Failed> {
        self.runner.fetch(ticket)
    }

    fn hold(&mut self, ticket: &R::Ticket) -> Result<R::Ticket, NoMemory> {
        self.runner.hold(ticket)
    }

    fn let_go(&mut self, ticket: R::Ticket) {
        self.runner.let_go(ticket);
    }

    fn renew(&mut self) -> Result<(), NoMemory> {
        self.settle();
        self.runner.renew()
    }
}
