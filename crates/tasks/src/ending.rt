//! What becomes of a board by what came of work.
ghost use Rattle.std.specs.Prelude.{◌≡◌, IfSome, None, Some, if◌then◌else◌};
ghost use Rattle.std.specs.Option.{option_map};
ghost use Rattle.board.specs.Boards.{cuts_of, view_of};
ghost use Rattle.board.specs.Cuts.{AreBlocksFor, IsPut, at_slot, blocks_of, told_on};
ghost use Rattle.board.specs.Pieces.{IsBlockFor};
ghost use Rattle.stages.specs.Tasks.{object_at};
ghost use Rattle.desk.specs.Ends.{felled, felled_cut};
ghost use Rattle.tasks.specs.Boards.{are_kept, cut_after, cut_by, ended, given_view, left_after, left_by};
ghost use Rattle.tasks.specs.Outcomes.{AreAll, IsOutcomeOf};

use crate::work::Outcome;
use board::{Blocks, Board, Given};
use kernel::Block;

/// This came of a piece of a slot's task. Gives back all blocks of the task, once they are to be joined.
pub fn end<N: Drop>(
    board: &mut Board<N>,
    slot: u64,
    piece: u64,
    outcome: Outcome,
) -> Option<Vec<Block>>
    requires { IsOutcomeOf (object_at (view_of board.old).tasks slot) outcome }
    ensures view { view_of board.new
        ≡ ended (view_of board.old) (at_slot (cuts_of board.old) slot) slot piece outcome }
    ensures cuts { IsPut (cuts_of board.old) slot
        (cut_after (view_of board.old) (at_slot (cuts_of board.old) slot) slot piece outcome) (cuts_of board.new) }
    ensures left { option_map (λ blocks. blocks.items) result
        ≡ left_after (view_of board.old) (at_slot (cuts_of board.old) slot) slot piece outcome }
    ensures all { IfSome result (λ blocks. AreAll (object_at (view_of board.old).tasks slot) blocks.items) }
    ensures tasks { (view_of board.new).tasks ≡ (view_of board.old).tasks }
    ensures notes { (view_of board.new).notes ≡ (view_of board.old).notes }
{
    match outcome {
        Outcome::Made(store) => {
            let _ = board.hand_in(slot, store);
            None
        }
        Outcome::Joined(store) => {
            let _ = board.whole(slot, store);
            None
        }
        Outcome::Part(block) => give(board, slot, piece, block),
        Outcome::Refused => {
            fell(board, slot);
            None
        }
    }
}

/// The block of a piece of a slot's task. The task fails where the board refuses the block, or where it isn't cut, so
/// that the block is all: nobody has one of such a task.
fn give<N: Drop>(board: &mut Board<N>, slot: u64, piece: u64, block: Block) -> Option<Vec<Block>>
    requires { IsBlockFor (view_of board.old).tasks slot block }
    ensures view { view_of board.new ≡ given_view (view_of board.old) slot
        (told_on (view_of board.old) (cuts_of board.old) slot piece block) }
    ensures cuts { IsPut (cuts_of board.old) slot
        (cut_by (view_of board.old) (at_slot (cuts_of board.old) slot) slot piece block
        (told_on (view_of board.old) (cuts_of board.old) slot piece block)) (cuts_of board.new) }
    ensures left { option_map (λ blocks. blocks.items) result
        ≡ left_by (told_on (view_of board.old) (cuts_of board.old) slot piece block) }
    ensures all { IfSome result (λ blocks. AreAll (object_at (view_of board.old).tasks slot) blocks.items) }
    ensures tasks { (view_of board.new).tasks ≡ (view_of board.old).tasks }
    ensures notes { (view_of board.new).notes ≡ (view_of board.old).notes }
{
    match board.give(slot, piece, block) {
        Ok(Given::More) => None,
        Ok(Given::Last(blocks)) => kept(board, slot, blocks),
        Err(_) => {
            fell(board, slot);
            None
        }
    }
}

/// The blocks of a task that was cut, of which there are several; else the task fails.
fn kept<N: Drop>(board: &mut Board<N>, slot: u64, blocks: Blocks) -> Option<Vec<Block>>
    requires { AreBlocksFor (view_of board.old).tasks slot (Given.Last blocks) }
    ensures view { view_of board.new ≡ (if are_kept (Some (blocks_of blocks)) then view_of board.old
        else felled (view_of board.old) slot) }
    ensures cuts { IsPut (cuts_of board.old) slot (if are_kept (Some (blocks_of blocks))
        then at_slot (cuts_of board.old) slot
        else felled_cut (view_of board.old) (at_slot (cuts_of board.old) slot) slot) (cuts_of board.new) }
    ensures left { option_map (λ blocks. blocks.items) result
        ≡ (if are_kept (Some (blocks_of blocks)) then Some (blocks_of blocks) else None) }
    ensures all { IfSome result (λ blocks. AreAll (object_at (view_of board.old).tasks slot) blocks.items) }
    ensures tasks { (view_of board.new).tasks ≡ (view_of board.old).tasks }
    ensures notes { (view_of board.new).notes ≡ (view_of board.old).notes }
{
    let several = match blocks {
        Blocks::Several(blocks) => blocks,
        Blocks::One(block) => {
            drop(block);
            fell(board, slot);
            return None;
        }
    };
    if several.len() < 2 {
        fell(board, slot);
        return None;
    }
    Some(several)
}

/// A slot fails that can be taken, or that somebody works on.
fn fell<N: Drop>(board: &mut Board<N>, slot: u64)
    ensures view { view_of board.new ≡ felled (view_of board.old) slot }
    ensures cuts { IsPut (cuts_of board.old) slot
        (felled_cut (view_of board.old) (at_slot (cuts_of board.old) slot) slot) (cuts_of board.new) }
    ensures tasks { (view_of board.new).tasks ≡ (view_of board.old).tasks }
    ensures notes { (view_of board.new).notes ≡ (view_of board.old).notes }
{
    let _ = board.fail(slot);
}
