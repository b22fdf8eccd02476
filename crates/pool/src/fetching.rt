//! The calling thread, which does tasks while it waits for a store.
ghost use Rattle.std.specs.Prelude.{◌≡◌, IfOk, slice_get, true};
ghost use Rattle.std.specs.Arc.{arc_value};
ghost use Rattle.board.specs.Boards.{view_of};
ghost use Rattle.board.specs.Pieces.{IsPieceFor, is_whole};
ghost use Rattle.desk.specs.Desks.{object_in, told};
ghost use Rattle.runner.specs.Tickets.{IsStoreFor};
ghost use Rattle.stages.specs.Progress.{is_running};

use crate::gate::Gate;
use crate::named::Named;
use crate::serving::{done, joined, leave, lock_with};
use crate::shared::Shared;
use board::Piece;
use desk::{Picker, Ticket};
use journal::{Naming, Note};
use kernel::SeveralThreads;
use runner::Failed;
use std::alloc::Global;
use std::sync::{Arc, Wait};
use std::thread::Threads;
use store::Store;
use tasks::{Demand, Finished, Left, Tasks};

/// Lays the tasks of the calling thread under the lock, and wakes workers for them. `busy` says whether it has a piece
/// to do meanwhile.
pub fn hand_over<J: Naming, R: Wait, G: Gate + Drop, P: Picker + Drop>(
    rt: &R,
    shared: &Shared<J, G, P>,
    own: &mut Tasks<J, P>,
    demand: Demand,
    busy: bool,
) {
    let mut guard = shared.locked.lock(rt);
    guard.exchange(own);
    guard.crew.busy = busy;
    let called = guard.crew.call(demand);
    leave(rt, shared, guard, None, called);
}

/// The store of a ticket's object. The calling thread, which has the tasks, does them until it has come. `Err`: there
/// was so much to do that workers were woken for it, one for each such share; the tasks lie under the lock since, but
/// for this one's piece, which the calling thread did meanwhile.
pub fn fetch_alone<J: Naming, R: Wait + Threads, G: Gate + Drop, P: Picker + Drop>(
    rt: &R,
    alloc: Global,
    named: &Named<J>,
    shared: &Shared<J, G, P>,
    own: &mut Tasks<J, P>,
    share: u64,
    ticket: &Ticket<Note<J>>,
) -> Result<Result<Arc<Store>, Failed>, Finished<J>>
    ensures { IfOk result (λ found. IfOk found
        (λ store. IsStoreFor (object_in told ticket.now) (arc_value store))) }
{
    for _ in rt.forever() {
        if let Some(found) = own.look(&named.log, ticket) {
            return Ok(found);
        }
        let Some(mut piece) = own.take(alloc) else {
            return Ok(Err(Failed));
        };
        let demand = own.demand_beside(&piece);
        if demand.threads(share) > 0 {
            let work = own.work_of(piece);
            hand_over(rt, shared, own, demand, true);
            return Err(done(rt, alloc, shared, work));
        }
        if piece.is_whole() {
            work_alone(rt, alloc, shared, own, &mut piece);
        } else {
            piece = work_in_part(rt, alloc, named, shared, own, piece);
        }
        shared.spares.drop_piece(rt, Some(piece));
    }
    unreachable!()
}

/// Does a piece that is all of its task, by the calling thread, which has the tasks. What it was made of stays in it.
fn work_alone<J: Naming, R: Wait + Threads, G: Gate + Drop, P: Picker + Drop>(
    rt: &R,
    alloc: Global,
    shared: &Shared<J, G, P>,
    own: &mut Tasks<J, P>,
    piece: &mut Piece,
)
    requires piece { IsPieceFor (view_of own.old.board).tasks piece.old }
    requires whole { is_whole piece.old ≡ true }
{
    shared.gate.enter(piece.number, piece.piece);
    let spare = shared.spares.take_for(rt, piece);
    let threads = SeveralThreads::with_spare(rt, own.crew.helpers(), spare);
    // What fails stays on the board as failed.
    let _ = own.work(&threads, alloc, piece);
    if let Some(spare) = threads.into_spare() {
        shared.spares.put_back(rt, spare);
    }
}

/// Does a piece of a task that was cut, by the calling thread, which has the tasks; and joins the blocks of its task,
/// if it is the last. Gives back what it was made of.
fn work_in_part<J: Naming, R: Wait + Threads, G: Gate + Drop, P: Picker + Drop>(
    rt: &R,
    alloc: Global,
    named: &Named<J>,
    shared: &Shared<J, G, P>,
    own: &mut Tasks<J, P>,
    piece: Piece,
) -> Piece
    requires piece { IsPieceFor (view_of own.old.board).tasks piece }
    requires running { is_running (slice_get (view_of own.old.board).progress piece.number) ≡ true }
{
    let work = own.work_of(piece);
    match own.finish(&named.log, done(rt, alloc, shared, work)) {
        Left::Joint(joint) => {
            let joined = joined(rt, alloc, shared, joint);
            own.finish(&named.log, joined).into_spent()
        }
        Left::Spent(spent) => spent,
    }
}

/// The store of a ticket's object. The calling thread does tasks that lie under the lock until it has come, where there
/// is a processor for it. Where no worker is awake then, it has the tasks from now on.
pub fn fetch_beside<J: Naming, R: Wait + Threads, G: Gate + Drop, P: Picker + Drop>(
    rt: &R,
    alloc: Global,
    named: &Named<J>,
    shared: &Shared<J, G, P>,
    own: &mut Tasks<J, P>,
    first: Option<Finished<J>>,
    ticket: &Ticket<Note<J>>,
) -> Result<Arc<Store>, Failed>
    ensures { IfOk result (λ store. IsStoreFor (object_in told ticket.now) (arc_value store)) }
{
    let mut last = first;
    for _ in rt.forever() {
        let (mut guard, spent) = lock_with(rt, alloc, named, shared, last.take());
        let locked = &mut *guard;
        locked.crew.awaited = None;
        locked.crew.busy = false;
        if let Some(found) = locked.look(&named.log, ticket) {
            let called = locked.call_after_fetch(&found);
            if locked.crew.awake == 0 {
                locked.exchange(own);
            }
            leave(rt, shared, guard, spent, called);
            return found;
        }
        match locked.take_beside(alloc) {
            Some(work) => {
                locked.crew.busy = true;
                let called = locked.call_beside(&work.piece);
                leave(rt, shared, guard, spent, called);
                last = Some(done(rt, alloc, shared, work));
            }
            None if spent.is_none() && locked.is_to_come(ticket.slot) => {
                locked.crew.awaited = Some(ticket.slot);
                drop(shared.come.wait(rt, guard));
            }
            None => leave(rt, shared, guard, spent, 0),
        }
    }
    unreachable!()
}
