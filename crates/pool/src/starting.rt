//! Workers that are started: the first with the pool, and the others by the first, once there is work for it. A run on
//! small objects so starts one thread, which it never wakes.
use crate::gate::Gate;
use crate::named::Named;
use crate::serving::serve;
use crate::shared::Shared;
use desk::Picker;
use journal::Naming;
use model::NoMemory;
use std::alloc::Global;
use std::sync::{Arc, Wait};
use std::thread;
use std::thread::{JoinHandle, Threads};

/// Starts the first worker.
pub fn start_first<J, R, G, P>(
    rt: &R,
    alloc: Global,
    named: &Arc<Named<J>>,
    shared: &Arc<Shared<J, G, P>>,
) -> Result<JoinHandle<()>, NoMemory>
where
    J: Naming + Send + Sync + 'static,
    R: Wait + Threads + Clone + Drop + Send + 'static,
    G: Gate + Drop + Send + Sync + 'static,
    P: Picker + Drop + Send + 'static,
{
    let named = Arc::try_clone(named).map_err(|_| NoMemory)?;
    let shared = Arc::try_clone(shared).map_err(|_| NoMemory)?;
    let theirs = rt.clone()?;
    match thread::spawn(rt, move || lead(&theirs, alloc, &named, &shared)) {
        Ok(worker) => Ok(worker),
        Err(_) => Err(NoMemory),
    }
}

/// What the first worker does: it sleeps until it is called, starts the others, does tasks as they do, and joins them.
fn lead<J, R, G, P>(rt: &R, alloc: Global, named: &Arc<Named<J>>, shared: &Arc<Shared<J, G, P>>)
where
    J: Naming + Send + Sync + 'static,
    R: Wait + Threads + Clone + Drop + Send + 'static,
    G: Gate + Drop + Send + Sync + 'static,
    P: Picker + Drop + Send + 'static,
{
    let Some(count) = await_work(rt, shared) else {
        return;
    };
    let others = started(rt, alloc, named, shared, count);
    serve(rt, alloc, named, shared);
    for other in others {
        other.join(rt);
    }
}

/// Sleeps until there is work: then it says how many others are to be started. None where the pool was closed.
fn await_work<J: Naming, R: Wait, G: Gate + Drop, P: Picker + Drop>(
    rt: &R,
    shared: &Shared<J, G, P>,
) -> Option<u64> {
    let mut guard = shared.locked.lock(rt);
    guard.crew.begin();
    for _ in rt.forever() {
        if guard.crew.closing {
            return None;
        }
        if guard.board.offers() > 0 {
            return Some(guard.crew.others);
        }
        guard.crew.sleep();
        guard = shared.more.wait(rt, guard);
        guard.crew.rise();
    }
    None
}

/// As many workers as can be started, at most so many.
fn started<J, R, G, P>(
    rt: &R,
    alloc: Global,
    named: &Arc<Named<J>>,
    shared: &Arc<Shared<J, G, P>>,
    count: u64,
) -> Vec<JoinHandle<()>>
where
    J: Naming + Send + Sync + 'static,
    R: Wait + Threads + Clone + Drop + Send + 'static,
    G: Gate + Drop + Send + Sync + 'static,
    P: Picker + Drop + Send + 'static,
{
    let mut workers = Vec::new(alloc);
    for _ in 0..count {
        if workers.reserve(1).is_err() {
            break;
        }
        let Ok(worker) = start(rt, alloc, named, shared) else {
            break;
        };
        workers.push_reserved(worker);
    }
    workers
}

/// Starts a worker that is not the first.
fn start<J, R, G, P>(
    rt: &R,
    alloc: Global,
    named: &Arc<Named<J>>,
    shared: &Arc<Shared<J, G, P>>,
) -> Result<JoinHandle<()>, NoMemory>
where
    J: Naming + Send + Sync + 'static,
    R: Wait + Threads + Clone + Drop + Send + 'static,
    G: Gate + Drop + Send + Sync + 'static,
    P: Picker + Drop + Send + 'static,
{
    let named = Arc::try_clone(named).map_err(|_| NoMemory)?;
    let shared = Arc::try_clone(shared).map_err(|_| NoMemory)?;
    let theirs = rt.clone()?;
    match thread::spawn(rt, move || join_in(&theirs, alloc, &named, &shared)) {
        Ok(worker) => Ok(worker),
        Err(_) => Err(NoMemory),
    }
}

/// What a worker does that is not the first.
fn join_in<J: Naming, R: Wait + Threads, G: Gate + Drop, P: Picker + Drop>(
    rt: &R,
    alloc: Global,
    named: &Named<J>,
    shared: &Shared<J, G, P>,
) {
    shared.locked.lock(rt).crew.begin();
    serve(rt, alloc, named, shared);
}
