//! Threads that do tasks.
use crate::gate::Gate;
use crate::named::Named;
use crate::shared::Shared;
use board::Piece;
use desk::{Joining, Picker, entries_in};
use journal::Naming;
use kernel::SeveralThreads;
use std::alloc::Global;
use std::sync::atomic::Ordering::SeqCst;
use std::sync::{MutexGuard, Wait};
use std::thread::Threads;
use tasks::{Finished, Joint, Left, Tasks, Work};

// No task is forgotten. While the calling thread has the tasks, it alone does them, and no worker is out with one: it
// takes them back only where none is awake. Else they lie under the lock. The calling thread sleeps only where its
// store is still to come, and nothing can be done or so many workers are awake as there are processors: then some
// worker is at work, which finds on its return that it is awaited, or takes what can be done. A worker sleeps only
// where it saw, under the lock, that nothing can be done. It counts as one that sleeps until somebody calls it, who
// wakes one then. Tasks that can be done and for which nobody is called are done by workers that are awake, or by the
// calling thread once it asks for a store; so workers are called for much work alone, and nothing hangs where none is.
// What a piece was made of is dropped by the thread that did it, once it holds no lock; and the thread that hands in
// the last block of a task joins them all, with no lock either. The task can't be taken meanwhile, and is still to
// come.

/// Does tasks until the pool is closed. Who does has begun (`Crew::begin`).
pub fn serve<J: Naming, R: Wait + Threads, G: Gate + Drop, P: Picker + Drop>(
    rt: &R,
    alloc: Global,
    named: &Named<J>,
    shared: &Shared<J, G, P>,
) {
    let mut last = None;
    for _ in rt.forever() {
        let (mut guard, spent) = lock_with(rt, alloc, named, shared, last.take());
        let locked = &mut *guard;
        if locked.crew.closing {
            return;
        }
        let taken = locked.take_work(alloc);
        if locked.calls_caller() {
            shared.come.notify_one();
        }
        match taken {
            Some(work) => {
                let called = locked.call_beside(&work.piece);
                leave(rt, shared, guard, spent, called);
                last = Some(done(rt, alloc, shared, work));
            }
            None if spent.is_none() => {
                locked.crew.sleep();
                let mut guard = shared.more.wait(rt, guard);
                guard.crew.rise();
            }
            None => leave(rt, shared, guard, spent, 0),
        }
    }
}

/// Takes the lock, and hands in what a thread did last. Where that leaves blocks to be joined, the thread does so, for
/// which it gives the lock up, and hands in what comes of it. Gives back what the work was made of, too.
pub fn lock_with<'a, J: Naming, R: Wait + Threads, G: Gate + Drop, P: Picker + Drop>(
    rt: &R,
    alloc: Global,
    named: &Named<J>,
    shared: &'a Shared<J, G, P>,
    last: Option<Finished<J>>,
) -> (MutexGuard<'a, Tasks<J, P>>, Option<Piece>) {
    let mut guard = shared.locked.lock(rt);
    let Some(finished) = last else {
        return (guard, None);
    };
    match guard.finish(&named.log, finished) {
        Left::Spent(spent) => (guard, Some(spent)),
        Left::Joint(joint) => {
            drop(guard);
            let joined = joined(rt, alloc, shared, joint);
            let mut guard = shared.locked.lock(rt);
            let spent = guard.finish(&named.log, joined).into_spent();
            (guard, Some(spent))
        }
    }
}

/// Gives the lock up; then drops what a piece was made of, and wakes workers.
pub fn leave<J: Naming, R: Wait, G: Gate + Drop, P: Picker + Drop>(
    rt: &R,
    shared: &Shared<J, G, P>,
    guard: MutexGuard<'_, Tasks<J, P>>,
    spent: Option<Piece>,
    called: u64,
) {
    drop(guard);
    shared.spares.drop_piece(rt, spent);
    for _ in 0..called {
        shared.more.notify_one();
    }
}

/// Does a piece of a task, behind the gate, with threads that are started to help where they can.
pub fn done<J: Naming, R: Wait + Threads, G: Gate + Drop, P: Picker + Drop>(
    rt: &R,
    alloc: Global,
    shared: &Shared<J, G, P>,
    work: Work<J>,
) -> Finished<J> {
    shared.gate.enter(work.ticket.slot, work.piece.piece);
    let spare = shared.spares.take_for(rt, &work.piece);
    let threads = SeveralThreads::with_spare(rt, work.helpers, spare);
    let finished = work.run(&threads, alloc);
    if let Some(spare) = threads.into_spare() {
        shared.spares.put_back(rt, spare);
    }
    finished
}

/// Joins blocks: in the memory of stores that nobody needs where it suits, and where no task is to read all of the
/// store so that their lists may stay apart.
pub fn joined<J: Naming, R: Wait + Threads, G: Gate + Drop, P: Picker + Drop>(
    rt: &R,
    alloc: Global,
    shared: &Shared<J, G, P>,
    joint: Joint<J>,
) -> Finished<J> {
    let joining = if joint.stays_apart() {
        shared.has_blocks.store(true, SeqCst);
        Joining::Apart
    } else {
        Joining::Together(shared.spares.take_lists(rt, entries_in(&joint.blocks)))
    };
    joint.run(rt, alloc, joining)
}
