//! Tasks, done on the calling thread.
ghost use Rattle.std.specs.Prelude.{◌≡◌, ◌≢◌, ◌<◌, IfOk, [], false};
ghost use Rattle.std.specs.Arc.{arc_value};
ghost use Rattle.std.specs.Bool.{OnTrue};
ghost use Rattle.board.specs.Boards.{cuts_of, view_of};
ghost use Rattle.board.specs.Looks.{SeenUnfinished, seen_of};
ghost use Rattle.stages.specs.Tasks.{object_at};
ghost use Rattle.stages.specs.Views.{offered, state_of};
ghost use Rattle.desk.specs.Ends.{IsIdle, unfinished};
ghost use Rattle.desk.specs.Works.{AreUncut};
ghost use Rattle.runner.specs.Tickets.{IsStoreFor};

use board::Board;
use desk::{Picker, Spares, look, needs_spare, take, work};
use kernel::OneThreadWithSpare;
use runner::Failed;
use std::alloc::Global;
use std::sync::Arc;
use store::Store;

/// The store of a slot, once what it rests on is done, and whatever is picked before. A slot that is to come isn't
/// given up: it is done then, or has failed.
pub(crate) fn finish<P: Picker, N: Drop>(
    alloc: Global,
    picker: &mut P,
    spares: &mut Spares,
    board: &mut Board<N>,
    slot: u64,
) -> Result<Arc<Store>, Failed>
    requires uncut { AreUncut (cuts_of board.old) }
    requires idle { IsIdle (view_of board.old).progress }
    ensures store { IfOk result (λ store. IsStoreFor (object_at (view_of board.old).tasks slot) (arc_value store)) }
    ensures tasks { (view_of board.new).tasks ≡ (view_of board.old).tasks }
    ensures notes { (view_of board.new).notes ≡ (view_of board.old).notes }
    ensures uncut { AreUncut (cuts_of board.new) }
    ensures idle { IsIdle (view_of board.new).progress }
    ensures ended { seen_of (state_of (view_of board.new) slot) ≢ SeenUnfinished }
{
    // Each round does a task.
    loop {
        if let Some(found) = look(board, slot) {
            return found;
        }
        if !work_once(alloc, picker, spares, board) {
            break;
        }
    }
    // Where nothing can be done, nothing is to come.
    board.settled();
    let Some(found) = look(board, slot) else {
        unreachable!()
    };
    found
}

/// Does one of the tasks that can be done, and answers whether there was one: then fewer are left.
pub(crate) fn work_once<P: Picker, N: Drop>(
    alloc: Global,
    picker: &mut P,
    spares: &mut Spares,
    board: &mut Board<N>,
) -> bool
    requires uncut { AreUncut (cuts_of board.old) }
    requires idle { IsIdle (view_of board.old).progress }
    ensures tasks { (view_of board.new).tasks ≡ (view_of board.old).tasks }
    ensures notes { (view_of board.new).notes ≡ (view_of board.old).notes }
    ensures fewer { OnTrue result
        (unfinished (view_of board.new).progress < unfinished (view_of board.old).progress) }
    ensures none { result ≡ false → offered (view_of board.new).tasks (view_of board.new).progress ≡ [] }
    ensures uncut { AreUncut (cuts_of board.new) }
    ensures idle { IsIdle (view_of board.new).progress }
{
    let Some(mut piece) = take(picker, board) else {
        return false;
    };
    let spare = if needs_spare(&piece) {
        spares.take()
    } else {
        None
    };
    let alone = OneThreadWithSpare::new(spare);
    // What fails stays on the board as failed.
    let _ = work(&alone, alloc, board, &mut piece);
    if let Some(spare) = alone.into_spare() {
        spares.put_back(spare);
    }
    spares.drop_piece(piece);
    true
}
