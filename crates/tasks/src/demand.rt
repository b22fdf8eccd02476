//! How much there is to do for threads that sleep: so many tasks, each about as much work as the one at hand, in
//! entries that are read. A task that is cut counts as one, as long as a piece of it can be taken.
ghost use Rattle.std.specs.Prelude.{◌≡◌};

use board::{Board, Look};

/// A task is done by another thread only where it is at least such a part of the work for which a worker is woken: to
/// hand less over, and to have the store in the cache of another processor, takes longer than to do it.
const PARTS: u64 = 8;

/// So many tasks that can be done, of so much work each, by so many threads each at the most.
#[derive(Clone, Copy, Debug)]
pub struct Demand {
    /// How many tasks can be done.
    pub tasks: u64,
    /// How much work each is, in entries that are read.
    pub work: u64,
    /// How many threads at the most do each.
    pub threads_each: u64,
}

impl Demand {
    /// There are so many tasks of so much work each. One thread does each; if it cuts a task, it calls others itself.
    pub fn new(tasks: u64, work: u64) -> Demand
        ensures tasks { result.tasks ≡ tasks }
        ensures work { result.work ≡ work }
    {
        Demand {
            tasks,
            work,
            threads_each: 1,
        }
    }

    /// There are so many tasks of so much work each, one of which was cut: several threads do its pieces.
    pub fn of_pieces(tasks: u64, work: u64) -> Demand
        ensures tasks { result.tasks ≡ tasks }
        ensures work { result.work ≡ work }
    {
        Demand {
            tasks,
            work,
            threads_each: PARTS,
        }
    }

    /// Nothing to do.
    pub fn none() -> Demand
        ensures { result.tasks ≡ 0 }
    {
        Demand::new(0, 0)
    }

    /// How many threads are worth while, where one is for such a share of work. A share of 0 is worth nobody's while.
    pub fn threads(&self, share: u64) -> u64
        ensures none { self.now.tasks ≡ 0 → result ≡ 0 }
    {
        let most = self.work.saturating_mul(self.tasks.min(PARTS));
        // Mostly there is too little, which is seen without a division.
        if most < share {
            return 0;
        }
        let worth = most.checked_div(share).unwrap_or(0);
        worth.min(self.tasks.saturating_mul(self.threads_each))
    }
}

/// How many entries the stores have that take roles of a slot's task; None where one of them is still to come.
pub fn entries_for<N: Drop>(board: &Board<N>, slot: u64) -> Option<u64> {
    let inputs = board.inputs(slot)?;
    let entries = entries_at(board, inputs.old)?
        .saturating_add(entries_at(board, inputs.mask)?)
        .saturating_add(entries_at(board, inputs.first)?)
        .saturating_add(entries_at(board, inputs.second)?);
    Some(entries)
}

fn entries_at<N: Drop>(board: &Board<N>, slot: Option<u64>) -> Option<u64> {
    let Some(slot) = slot else { return Some(0) };
    match board.look(slot) {
        Look::Done(store) => Some(store.nvals()),
        _ => None,
    }
}
