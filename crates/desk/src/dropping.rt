//! Work that nobody can ask for.
ghost use Rattle.std.specs.Prelude.{◌≡◌};
ghost use Rattle.board.specs.Boards.{cuts_of, view_of};
ghost use Rattle.desk.specs.Ends.{IsIdle};
ghost use Rattle.desk.specs.Works.{AreUncut};

use board::Board;

/// A slot for which nobody can ask is not done any more, and neither is what it alone asked for.
pub fn give_up<N: Drop>(board: &mut Board<N>, slot: u64)
    ensures tasks { (view_of board.new).tasks ≡ (view_of board.old).tasks }
    ensures notes { (view_of board.new).notes ≡ (view_of board.old).notes }
    ensures uncut { AreUncut (cuts_of board.old) → AreUncut (cuts_of board.new) }
    ensures idle { IsIdle (view_of board.old).progress → IsIdle (view_of board.new).progress }
{
    if board.give_up(slot).is_err() {
        return;
    }
    let Some(inputs) = board.inputs(slot) else {
        return;
    };
    if let Some(input) = inputs.old {
        give_up(board, input);
    }
    if let Some(input) = inputs.mask {
        give_up(board, input);
    }
    if let Some(input) = inputs.first {
        give_up(board, input);
    }
    if let Some(input) = inputs.second {
        give_up(board, input);
    }
}
