//! Scripts over a pool one of whose pieces of work is held.
ghost use Rattle.std.specs.Prelude.{◌≡◌};

use super::NoFiles;
use deferral::{run, run_over_pool};
use desk::Order;
use journal::{Log, Naming};
use pool::Gate;
use std::alloc::{AllocError, Global};
use std::marker::Brand;
use std::sync::atomic::AtomicU64;
use std::sync::atomic::Ordering::SeqCst;
use std::sync::{Arc, Wait};
use std::thread;
use std::thread::Threads;
use std::time::{Clock, Duration};

/// How often a piece that is held looks again, and then gives up.
const TURNS: u64 = 10_000;

// A full vector is made first, and then read by one task and edited by another.
const SCRIPT: &str =
    "vector V INT64 65536\nvector W INT64 65536\nfill V - - 3 : -\nwait V complete\n\
        apply W - - IDENTITY.INT64 V -\nset V 5 9\nremove V 6\nget V 5\nnvals V\nget W 5\nget W 6\nnvals W\n";

/// Pieces that came to the gate, and those that gave up there.
#[derive(Drop)]
struct Counts {
    entered: AtomicU64,
    lost: AtomicU64,
}

/// Holds the piece that comes second until a third has come.
#[derive(Drop)]
struct SecondHeld<R: Drop> {
    rt: R,
    counts: Arc<Counts>,
}

impl<R: Clock + Drop> Gate for SecondHeld<R> {
    fn enter(&self, _slot: u64, _piece: u64) {
        if self.counts.entered.fetch_add(1, SeqCst) != 1 {
            return;
        }
        for _ in 0..TURNS {
            if self.counts.entered.load(SeqCst) > 2 {
                return;
            }
            thread::sleep(&self.rt, Duration::from_millis(1));
        }
        self.counts.lost.fetch_add(1, SeqCst);
    }
}

// The answers over a pool of two workers, and a log that has a name.
fn answers<J, R>(
    rt: R,
    alloc: Global,
    log: Log,
    gate: SecondHeld<R>,
    order: Order,
) -> Result<Vec<u8>, AllocError>
where
    J: Naming + Send + Sync + 'static,
    R: Wait + Threads + Clock + Clone + Drop + Send + Sync + 'static,
    requires { log ≡ J.log }
{
    let mut out = Vec::new(alloc);
    run_over_pool::<J, R, NoFiles, SecondHeld<R>, Order>(
        &rt,
        alloc,
        log,
        SCRIPT.as_bytes(),
        &NoFiles,
        2,
        1,
        gate,
        order,
        &mut out,
    )
    .map_err(|_| AllocError)?;
    Ok(out)
}

// Whether the answers are those of one thread.
fn is_answered<R>(rt: &R, order: Order) -> Result<bool, AllocError>
where
    R: Wait + Threads + Clock + Clone + Drop + Send + Sync + AllocGlobal + 'static,
{
    let alloc = rt.alloc();
    let counts = Counts {
        entered: AtomicU64::new(0),
        lost: AtomicU64::new(0),
    };
    let counts = Arc::new(alloc, counts)?;
    let gate = SecondHeld {
        rt: rt.clone()?,
        counts: Arc::try_clone(&counts)?,
    };
    let log = Log::new(alloc).map_err(|_| AllocError)?;
    let out = answers::<Brand, R>(rt.clone()?, alloc, log, gate, order)?;
    let mut wanted = Vec::new(alloc);
    run(
        alloc,
        SCRIPT.as_bytes(),
        &NoFiles,
        Order::First,
        &mut wanted,
    )
    .map_err(|_| AllocError)?;
    Ok(out.as_slice() == wanted.as_slice() && counts.lost.load(SeqCst) == 0)
}

#[test]
fn reader_held_while_its_input_is_edited(rt: HostRuntime) -> Result<(), AllocError> {
    assert!(rt; is_answered(&rt, Order::First)?);
    Ok(())
}

#[test]
fn edits_held_while_their_input_is_read(rt: HostRuntime) -> Result<(), AllocError> {
    assert!(rt; is_answered(&rt, Order::Last)?);
    Ok(())
}
