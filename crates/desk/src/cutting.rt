//! Pieces of tasks that are cut for threads that work apart.
ghost use Rattle.std.specs.Prelude.{◌≡◌, IfSome, None, [], slice_get, true};
ghost use Rattle.board.specs.Boards.{cuts_of, view_of};
ghost use Rattle.board.specs.Cuts.{offered_on};
ghost use Rattle.board.specs.Pieces.{IsPieceFor};
ghost use Rattle.stages.specs.Progress.{is_running};

use crate::picker::Picker;
use board::{Board, Look, Piece};
use calls::Roles;
use kernel::{cuts, is_cut};
use std::alloc::Global;
use store::Store;

/// Others count beside a task where each has at least such a part of its work.
const PARTS: u64 = 8;

/// A task whose stores have fewer entries isn't worth to be cut, even where each of one meets each of another.
const LEAST_ENTRIES: u64 = 1 << 9;

/// A piece of one of the tasks that can be done; None where none can. A task that nobody took is cut for so many
/// threads, where it is worth that, into pieces of `least` rows or more; but not where each of so many idle threads can
/// have another task, which spares to join pieces. A task fails for which a share of a store is refused.
pub fn take_cut<P: Picker, N: Drop>(
    alloc: Global,
    picker: &mut P,
    board: &mut Board<N>,
    least: u64,
    threads: u64,
    idle: u64,
) -> Option<Piece>
    ensures none { result ≡ None → offered_on (view_of board.new) (cuts_of board.new) ≡ [] }
    ensures piece { IfSome result (IsPieceFor (view_of board.new).tasks) }
    ensures running { IfSome result (λ piece.
        is_running (slice_get (view_of board.new).progress piece.number) ≡ true) }
    ensures tasks { (view_of board.new).tasks ≡ (view_of board.old).tasks }
    ensures notes { (view_of board.new).notes ≡ (view_of board.old).notes }
{
    // Each round but the last fails a task.
    loop {
        let pick = picker.pick();
        let cuts = cuts_for(alloc, board, pick, least, threads, idle);
        let cuts = cuts.unwrap_or(Vec::new(alloc));
        match board.take(pick, &cuts) {
            Ok(taken) => return taken,
            Err(number) => {
                let _ = board.fail(number);
            }
        }
    }
}

/// The rows at which the task is cut of which a pick takes a piece; None where it isn't, or was taken before.
fn cuts_for<N: Drop>(
    alloc: Global,
    board: &Board<N>,
    pick: u64,
    least: u64,
    threads: u64,
    idle: u64,
) -> Option<Vec<u64>> {
    let offer = board.offer(pick)?;
    let recipe = offer.recipe?;
    if offer.rows <= least {
        // It has too few rows for two pieces.
        return None;
    }
    let stores = stores_of(board, offer.number);
    let entries = entries_in(&stores);
    let tasks = idle.saturating_add(1).max(2);
    if entries < LEAST_ENTRIES
        || !is_cut(recipe, &stores, threads)
        || are_there(board, tasks, entries / PARTS)
    {
        return None;
    }
    Some(cuts(alloc, recipe, &stores, least, threads))
}

/// Whether so many tasks can be done whose stores have at least so many entries.
fn are_there<N: Drop>(board: &Board<N>, tasks: u64, least: u64) -> bool {
    let mut missing = tasks;
    for place in 0..board.offers().min(tasks.saturating_mul(PARTS)) {
        if let Some(offer) = board.offer(place)
            && entries_in(&stores_of(board, offer.number)) >= least
        {
            missing = missing.saturating_sub(1);
        }
    }
    missing == 0
}

/// How many entries stores have.
fn entries_in(stores: &Roles<&Store>) -> u64 {
    entries(&stores.old)
        .saturating_add(entries(&stores.mask))
        .saturating_add(entries(&stores.first))
        .saturating_add(entries(&stores.second))
}

fn entries(store: &Option<&Store>) -> u64 {
    match store {
        Some(store) => store.nvals(),
        None => 0,
    }
}

/// The stores that are there of those that take the roles of a slot's task.
fn stores_of<N: Drop>(board: &Board<N>, number: u64) -> Roles<&Store> {
    let Some(inputs) = board.inputs(number) else {
        return Roles::none();
    };
    Roles {
        old: store_at(board, inputs.old),
        mask: store_at(board, inputs.mask),
        first: store_at(board, inputs.first),
        second: store_at(board, inputs.second),
    }
}

/// The store of a slot, where it is there.
fn store_at<N: Drop>(board: &Board<N>, slot: Option<u64>) -> Option<&Store> {
    match board.look(slot?) {
        Look::Done(store) => Some(store),
        _ => None,
    }
}
