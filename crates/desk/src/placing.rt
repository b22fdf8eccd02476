//! New slots of a board.
ghost use Rattle.std.specs.Prelude.{◌≡◌};
ghost use Rattle.board.specs.Boards.{cuts_of, view_of};
ghost use Rattle.desk.specs.Desks.{AreTold, object_in};
ghost use Rattle.desk.specs.Ends.{IsIdle};
ghost use Rattle.history.specs.Histories.{object_of};
ghost use Rattle.runner.specs.Tickets.{made_by};

use crate::places::places_of;
use crate::ticket::Ticket;
use board::{Board, Refusal};
use calls::{Recipe, Roles};
use history::Noted;
use model::NoMemory;

/// The slot of a ticket whose work is on no board.
const NO_SLOT: u64 = u64::MAX;

/// A slot for what was noted, where all its inputs are on the board, and a number of none elsewhere. A store that is
/// there is shared, and nothing is to be done for it.
pub fn place<N: Noted>(
    board: &mut Board<N>,
    log: &N::Log,
    epoch: u64,
    note: N,
    recipe: Recipe,
    inputs: &Roles<&Ticket<N>>,
) -> Result<u64, NoMemory>
    requires log { N.is_of log.now }
    requires told { AreTold N.told (view_of board.old) }
    requires object { object_of (N.told note) ≡ made_by (object_in N.told) recipe inputs.now }
    ensures told { AreTold N.told (view_of board.new) }
    ensures cuts { cuts_of board.new ≡ cuts_of board.old }
    ensures idle { IsIdle (view_of board.old).progress → IsIdle (view_of board.new).progress }
{
    match recipe {
        Recipe::Given(given) => board.issue_given(note, given),
        recipe => issue(board, log, epoch, note, recipe, inputs),
    }
}

/// A slot for what was noted, which is to be done, where all its inputs are on the board.
fn issue<N: Noted>(
    board: &mut Board<N>,
    log: &N::Log,
    epoch: u64,
    note: N,
    recipe: Recipe,
    inputs: &Roles<&Ticket<N>>,
) -> Result<u64, NoMemory>
    requires log { N.is_of log.now }
    requires told { AreTold N.told (view_of board.old) }
    requires object { object_of (N.told note) ≡ made_by (object_in N.told) recipe inputs.now }
    ensures told { AreTold N.told (view_of board.new) }
    ensures cuts { cuts_of board.new ≡ cuts_of board.old }
    ensures idle { IsIdle (view_of board.old).progress → IsIdle (view_of board.new).progress }
{
    let Some(places) = places_of(board, log, epoch, inputs) else {
        return Ok(NO_SLOT);
    };
    match board.issue(note, recipe, places) {
        Ok(slot) => Ok(slot),
        Err(Refusal::NoMemory) => Err(NoMemory),
        Err(Refusal::Stranger | Refusal::Twice) => Ok(NO_SLOT),
    }
}
