//! Gates at which pieces of work are held.
use pool::Gate;
use std::sync::Arc;
use std::sync::atomic::AtomicU64;
use std::sync::atomic::Ordering::SeqCst;
use std::thread;
use std::time::{Clock, Duration};

/// What a test and its gate tell each other.
#[derive(Drop)]
pub(crate) struct Signs {
    /// Recipes whose submission has returned.
    pub(crate) submitted: AtomicU64,
    /// Pieces that came to the gate.
    pub(crate) entered: AtomicU64,
    /// Leaves to pass the gate.
    pub(crate) released: AtomicU64,
    /// Pieces that gave up.
    pub(crate) lost: AtomicU64,
}

impl Signs {
    pub(crate) fn new() -> Signs {
        Signs {
            submitted: AtomicU64::new(0),
            entered: AtomicU64::new(0),
            released: AtomicU64::new(0),
            lost: AtomicU64::new(0),
        }
    }
}

/// Which sign a piece waits for.
#[derive(Clone, Copy)]
pub(crate) enum Sign {
    Submitted,
    Entered,
    Released,
}

/// Holds the first pieces of the first slots' tasks until a sign has come so far, or they have looked too often.
#[derive(Drop)]
pub(crate) struct Holding<R: Drop> {
    pub(crate) rt: R,
    pub(crate) signs: Arc<Signs>,
    pub(crate) slots: u64,
    pub(crate) sign: Sign,
    pub(crate) least: u64,
    pub(crate) turns: u64,
}

impl<R: Clock + Drop> Holding<R> {
    // Sleeps a millisecond a turn.
    fn hold(&self) {
        let count = match self.sign {
            Sign::Submitted => &self.signs.submitted,
            Sign::Entered => &self.signs.entered,
            Sign::Released => &self.signs.released,
        };
        for _ in 0..self.turns {
            if count.load(SeqCst) >= self.least {
                return;
            }
            thread::sleep(&self.rt, Duration::from_millis(1));
        }
        self.signs.lost.fetch_add(1, SeqCst);
    }
}

impl<R: Clock + Drop> Gate for Holding<R> {
    fn enter(&self, slot: u64, piece: u64) {
        self.signs.entered.fetch_add(1, SeqCst);
        if slot < self.slots && piece == 0 {
            self.hold();
        }
    }
}
