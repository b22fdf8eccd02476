//! Runs over the runner that the options choose.
ghost use Rattle.std.specs.Prelude.{◌≡◌, IfOk, None, OnErr};
ghost use Rattle.gbrun.specs.Runs.{IsMade};

use crate::evaluation::Evaluation;
use crate::options::Options;
use desk::Order;
use history::{History, Naming as BookNaming};
use inline::Inline;
use journal::{Log, Naming};
use model::NoMemory;
use pool::{Open, Pool};
use script::{OneThread, Sources, threads_of};
use std::alloc::Global;
use std::marker::Brand;
use std::sync::Wait;
use std::thread::Threads;

/// Has a run made of a script with these files: on this thread without workers, else over a pool of so many, where a
/// worker that can't be started is left out. `Err`: there is no memory for the pool, and no run was made.
pub fn run_as_chosen<H, S, X>(
    rt: &H,
    alloc: Global,
    script: &[u8],
    sources: &S,
    options: Options<'_>,
    run: &mut X,
) -> Result<Result<(), NoMemory>, NoMemory>
where
    H: Wait + Threads + Clone + Drop + Send + 'static,
    S: Sources,
    X: Evaluation,
    requires { X.made run.old ≡ None }
    ensures made { IfOk result (λ ended.
        IsMade (X.admits (S.held sources.now) script.now options.entry) ended (X.made run.new)) }
    ensures none { OnErr result (X.made run.new ≡ None) }
{
    if options.workers == 0 {
        return Ok(run_inline::<Brand, S, X>(alloc, History::new(), script, sources, options, run));
    }
    let log = Log::new(alloc)?;
    run_pooled::<Brand, H, S, X>(rt, alloc, log, script, sources, options, run)
}

/// Over a history that has a name.
fn run_inline<J: BookNaming, S: Sources, X: Evaluation>(
    alloc: Global,
    history: History,
    script: &[u8],
    sources: &S,
    options: Options<'_>,
    run: &mut X,
) -> Result<(), NoMemory>
    requires book { history ≡ J.book }
    requires none { X.made run.old ≡ None }
    ensures { IsMade (X.admits (S.held sources.now) script.now options.entry) result (X.made run.new) }
{
    let mut runner: Inline<J, Order> = Inline::new(alloc, history, options.order);
    run.run(&OneThread, alloc, script, sources, options, &mut runner)
}

/// Over a log that has a name. As many threads as there are workers read and write files.
fn run_pooled<J, H, S, X>(
    rt: &H,
    alloc: Global,
    log: Log,
    script: &[u8],
    sources: &S,
    options: Options<'_>,
    run: &mut X,
) -> Result<Result<(), NoMemory>, NoMemory>
where
    J: Naming + Send + Sync + 'static,
    H: Wait + Threads + Clone + Drop + Send + 'static,
    S: Sources,
    X: Evaluation,
    requires log { log ≡ J.log }
    requires none { X.made run.old ≡ None }
    ensures made { IfOk result (λ ended.
        IsMade (X.admits (S.held sources.now) script.now options.entry) ended (X.made run.new)) }
    ensures none { OnErr result (X.made run.new ≡ None) }
{
    let Options {
        workers,
        rows,
        order,
        ..
    } = options;
    let handle = rt.clone()?;
    let mut pool = Pool::<J, H, Open, Order>::new(handle, alloc, log, workers, rows, Open, order)?;
    let ended = run.run(
        &threads_of(rt, workers),
        alloc,
        script,
        sources,
        options,
        &mut pool,
    );
    pool.close();
    Ok(ended)
}
