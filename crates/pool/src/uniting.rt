//! Stores that are given the form in which a task is to read them: lists in one, of those in blocks and of bitmaps.
ghost use Rattle.std.specs.Prelude.{◌≡◌, IfSome};
ghost use Rattle.std.specs.Arc.{arc_value};

use crate::gate::Gate;
use crate::named::Named;
use crate::shared::Shared;
use crate::spares::SharedSpares;
use calls::{Recipe, Role, Roles};
use desk::{Picker, Ticket, united};
use journal::{Naming, Note};
use kernel::{is_factor, needs_joined};
use std::alloc::Global;
use std::sync::{Arc, Wait};
use std::thread::Threads;
use store::{AsSparse, Form, Store};
use tasks::{ENOUGH_TO_CUT, Tasks};

// It is done once, by the calling thread, before the task is there: tasks that read all of a store in blocks would each
// make lists of their own, and so would those that go along its rows but aren't cut, and each piece of a product of a
// factor that is a bitmap. Where memory is refused for it, they do. A matrix that was a factor is likely to be one
// again, so it stays in lists, as what products leave does.

/// A bitmap with fewer entries is made lists of by each piece, or by the one piece that there is.
const WORTH_LISTS: u64 = 1 << 16;

/// Puts the lists of stores together that a task of the calling thread's is to read in one.
pub fn unite_own<J: Naming, R: Wait + Threads, P: Picker + Drop>(
    rt: &R,
    alloc: Global,
    named: &Named<J>,
    spares: &SharedSpares,
    own: &mut Tasks<J, P>,
    recipe: &Recipe,
    inputs: &Roles<&Ticket<Note<J>>>,
)
    ensures epoch { own.new.epoch ≡ own.old.epoch }
    ensures crew { own.new.crew ≡ own.old.crew }
{
    if let Some(ticket) = inputs.old {
        unite_one(rt, alloc, named, spares, own, ticket, recipe, Role::Old);
    }
    if let Some(ticket) = inputs.mask {
        unite_one(rt, alloc, named, spares, own, ticket, recipe, Role::Mask);
    }
    if let Some(ticket) = inputs.first {
        unite_one(rt, alloc, named, spares, own, ticket, recipe, Role::First);
    }
    if let Some(ticket) = inputs.second {
        unite_one(rt, alloc, named, spares, own, ticket, recipe, Role::Second);
    }
}

/// The same for a task that is to lie under the lock, which is given up meanwhile.
pub fn unite_shared<J: Naming, R: Wait + Threads, G: Gate + Drop, P: Picker + Drop>(
    rt: &R,
    alloc: Global,
    named: &Named<J>,
    shared: &Shared<J, G, P>,
    recipe: &Recipe,
    inputs: &Roles<&Ticket<Note<J>>>,
) {
    if let Some(ticket) = inputs.old {
        unite_beside(rt, alloc, named, shared, ticket, recipe, Role::Old);
    }
    if let Some(ticket) = inputs.mask {
        unite_beside(rt, alloc, named, shared, ticket, recipe, Role::Mask);
    }
    if let Some(ticket) = inputs.first {
        unite_beside(rt, alloc, named, shared, ticket, recipe, Role::First);
    }
    if let Some(ticket) = inputs.second {
        unite_beside(rt, alloc, named, shared, ticket, recipe, Role::Second);
    }
}

/// Puts the lists of one store together.
fn unite_one<J: Naming, R: Wait + Threads, P: Picker + Drop>(
    rt: &R,
    alloc: Global,
    named: &Named<J>,
    spares: &SharedSpares,
    own: &mut Tasks<J, P>,
    ticket: &Ticket<Note<J>>,
    recipe: &Recipe,
    role: Role,
)
    ensures epoch { own.new.epoch ≡ own.old.epoch }
    ensures crew { own.new.crew ≡ own.old.crew }
{
    let Some(Ok(store)) = own.look(&named.log, ticket) else {
        return;
    };
    let Some(lists) = lists_of(rt, alloc, spares, &store, recipe, role) else {
        return;
    };
    let left = own.renew_store(&named.log, ticket, lists);
    drop(store);
    spares.drop_share(rt, Some(left));
}

/// The same where the store's slot lies under the lock.
fn unite_beside<J: Naming, R: Wait + Threads, G: Gate + Drop, P: Picker + Drop>(
    rt: &R,
    alloc: Global,
    named: &Named<J>,
    shared: &Shared<J, G, P>,
    ticket: &Ticket<Note<J>>,
    recipe: &Recipe,
    role: Role,
) {
    let guard = shared.locked.lock(rt);
    let found = guard.look(&named.log, ticket);
    drop(guard);
    let Some(Ok(store)) = found else {
        return;
    };
    let Some(lists) = lists_of(rt, alloc, &shared.spares, &store, recipe, role) else {
        return;
    };
    let mut guard = shared.locked.lock(rt);
    let left = guard.renew_store(&named.log, ticket, lists);
    drop(guard);
    drop(store);
    shared.spares.drop_share(rt, Some(left));
}

/// The store as lists in one, where there is memory for that: of several, for a task that needs them in one or, of so
/// few entries that it isn't cut, reads each row; and of a bitmap, for a product of which it is a factor.
fn lists_of<R: Wait + Threads>(
    rt: &R,
    alloc: Global,
    spares: &SharedSpares,
    store: &Arc<Store>,
    recipe: &Recipe,
    role: Role,
) -> Option<Arc<Store>>
    ensures { IfSome result (λ lists. arc_value lists ≡ arc_value store.now) }
{
    match store.form() {
        Form::Sparse(_) => None,
        Form::Blocks(blocks) => {
            if !needs_joined(recipe, role) && blocks.nvals() >= ENOUGH_TO_CUT {
                return None;
            }
            let room = spares.take_lists(rt, blocks.nvals() as usize);
            let lists = united(rt, alloc, room, blocks).ok()?;
            Arc::new(alloc, lists).ok()
        }
        Form::Bitmap(bitmap) => {
            if !is_factor(recipe, role) || bitmap.nvals() < WORTH_LISTS {
                return None;
            }
            let Ok(AsSparse::Made(lists)) = store.as_sparse(alloc) else {
                return None;
            };
            Arc::new(alloc, Store::from_sparse(lists)).ok()
        }
    }
}
