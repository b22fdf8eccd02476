//! Runs of scripts whose work is done by threads.
ghost use Rattle.std.specs.Prelude.{ℕ, ◌≡◌, ◌++◌, List, OnOk, OnErr, take};
ghost use Rattle.model.specs.Loads.{readings_in};
ghost use Rattle.model.specs.Poisoned.{Ran};
ghost use Rattle.model.specs.Run.{out_of};
ghost use Rattle.model.specs.Runs.{TellsOfNoWant};

use desk::{Order, Picker};
use journal::{Log, Naming};
use model::NoMemory;
use pool::{Gate, Open, Pool};
use script::{Sources, threads_of};
use std::alloc::Global;
use std::marker::Brand;
use std::sync::Wait;
use std::thread::Threads;

/// Runs a script as `script::run` does. Work is put off and done by so many threads, and by the calling one while it
/// waits, in this order as far as its inputs permit; a large call is cut into pieces of at least so many rows. As many
/// threads read and write a large file. A thread that can't be started is left out.
pub fn run_pooled<R, S>(
    rt: &R,
    alloc: Global,
    script: &[u8],
    sources: &S,
    workers: u64,
    rows: u64,
    order: Order,
    out: &mut Vec<u8>,
) -> Result<(), NoMemory>
where
    R: Wait + Threads + Clone + Drop + Send + 'static,
    S: Sources,
    ensures headline { OnOk result ((text : List ℕ) → out.new.items ≡ out.old.items ++ text → TellsOfNoWant text
        → text ≡ out_of (S.held sources.now) script.now) }
    ensures ok { OnOk result (Ran (readings_in (S.held sources.now) script.now) out.old.items out.new.items) }
    ensures err { OnErr result ((n : ℕ)
        × Ran (take n (readings_in (S.held sources.now) script.now)) out.old.items out.new.items) }
{
    let log = Log::new(alloc)?;
    run_over_pool::<Brand, R, S, Open, Order>(
        rt, alloc, log, script, sources, workers, rows, Open, order, out,
    )
}

/// The same over a log that has a name, whoever picks what is done next, and whatever holds threads before a task.
pub fn run_over_pool<J, R, S, G, P>(
    rt: &R,
    alloc: Global,
    log: Log,
    script: &[u8],
    sources: &S,
    workers: u64,
    rows: u64,
    gate: G,
    picker: P,
    out: &mut Vec<u8>,
) -> Result<(), NoMemory>
where
    J: Naming + Send + Sync + 'static,
    R: Wait + Threads + Clone + Drop + Send + 'static,
    S: Sources,
    G: Gate + Drop + Send + Sync + 'static,
    P: Picker + Drop + Send + 'static,
    requires { log ≡ J.log }
    ensures headline { OnOk result ((text : List ℕ) → out.new.items ≡ out.old.items ++ text → TellsOfNoWant text
        → text ≡ out_of (S.held sources.now) script.now) }
    ensures ok { OnOk result (Ran (readings_in (S.held sources.now) script.now) out.old.items out.new.items) }
    ensures err { OnErr result ((n : ℕ)
        × Ran (take n (readings_in (S.held sources.now) script.now)) out.old.items out.new.items) }
{
    let handle = rt.clone()?;
    let mut pool = Pool::<J, R, G, P>::new(handle, alloc, log, workers, rows, gate, picker)?;
    let files = threads_of(rt, workers);
    let ended = script::run_by(&files, alloc, script, sources, &mut pool, out);
    pool.close();
    ended
}
