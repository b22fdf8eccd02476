//! Tasks that are cut into pieces.
ghost use Rattle.std.specs.Prelude.{◌≡◌, ◌<◌, ◌≤◌, Err, IfErr, IfOk, IfSome, MatchResult, Ok};
ghost use Rattle.std.specs.Prelude.{OnErr, OnOk, length, slice_set, true};
ghost use Rattle.std.specs.Arc.{arc_value};
ghost use Rattle.std.specs.Option.{option_map};
ghost use Rattle.std.specs.Result.{result_map_both};
ghost use Rattle.calls.specs.declared.role.Role.{Role as AnyRole};
ghost use Rattle.kernel.specs.Covers.{Covers};
ghost use Rattle.board.specs.Cuts.{IfSeveral, IsNext, KeepsTask, after_cut, cutting_of, may_cut, one_taken};
ghost use Rattle.board.specs.Cuts.{refusal_of, task_of_cut, told_blocks, told_cut};
ghost use Rattle.board.specs.Pieces.{is_whole, recipe_of, rows_for};
ghost use Rattle.board.specs.Stores.{stored_for};
ghost use Rattle.pieces.specs.Parts.{after_give, blocks_in, cut_at, given_to};
ghost use Rattle.pieces.specs.declared.part.Part.TheVariants as AnyPart;

use crate::look::Refusal;
use crate::piece::{Blocks, Given, Piece, Stores, TaskRecipe};
use calls::Recipe;
use kernel::Block;
use model::NoMemory;
use pieces::{Pieces, Refused};
use std::alloc::Global;
use std::sync::Arc;

/// What there is of a task that was cut.
#[derive(Drop)]
pub(crate) enum Cut {
    /// Its pieces are taken and given.
    Underway(Box<CutTask>),
    /// All of its so many pieces were given.
    Joined(u64),
}

/// A task whose pieces share its recipe and the stores that it reads.
#[derive(Drop)]
pub(crate) struct CutTask {
    pub(crate) recipe: Arc<Recipe>,
    pub(crate) inputs: Stores,
    pub(crate) pieces: Pieces,
}

impl Cut {
    /// A block for a piece. Once it is the last, nothing is kept but how many pieces there were.
    pub(crate) fn give(&mut self, piece: u64, block: Block) -> Result<Given, Refusal>
        ensures answer { MatchResult result
            (λ given. told_cut (cutting_of self.old) piece block ≡ Ok (told_blocks given))
            (λ why. told_cut (cutting_of self.old) piece block ≡ Err why) }
        ensures left { IfOk result (λ given.
            cutting_of self.new ≡ after_cut (cutting_of self.old) piece block (told_blocks given)) }
        ensures keeps { OnOk result (KeepsTask (task_of_cut self.old) (task_of_cut self.new)) }
        ensures covers { IfOk result (λ given. IfSome (task_of_cut self.old) (λ task.
            IfSeveral given (Covers 0 task.pieces.rows))) }
        ensures among { IfOk result (λ given. IfSome (task_of_cut self.old) (λ task. IfSeveral given (λ blocks.
            blocks ≡ blocks_in (slice_set task.pieces.parts piece (AnyPart.Given block))))) }
        ensures refused { OnErr result (self.new ≡ self.old) }
    {
        let task = match self {
            Cut::Underway(task) => task,
            Cut::Joined(count) if piece < *count => return Err(Refusal::Twice),
            Cut::Joined(_) => return Err(Refusal::Stranger),
        };
        match task.give(piece, block) {
            Ok(None) => Ok(Given::More),
            Ok(Some(blocks)) => {
                *self = Cut::Joined(blocks.len() as u64);
                Ok(Given::Last(Blocks::Several(blocks)))
            }
            Err(why) => Err(refusal_of(why)),
        }
    }
}

/// Why a block wasn't accepted, as a board says it.
fn refusal_of(why: Refused) -> Refusal
    ensures { result ≡ refusal_of why }
{
    match why {
        Refused::Stranger => Refusal::Stranger,
        Refused::Twice => Refusal::Twice,
    }
}

impl CutTask {
    /// A task that is one piece, cut, and the first piece of it. `Err`: it stays one piece, since no cut is used, its
    /// recipe is edits, or memory is refused.
    pub(crate) fn cut(
        alloc: Global,
        whole: Piece,
        cuts: &[u64],
    ) -> Result<(Box<CutTask>, Piece), Piece>
        requires { is_whole whole ≡ true }
        ensures recipe { IfOk result (λ made. arc_value made.0.value.recipe ≡ recipe_of whole.recipe) }
        ensures inputs { IfOk result (λ made. (role : AnyRole)
            → stored_for made.0.value.inputs role ≡ stored_for whole.inputs role) }
        ensures pieces { IfOk result (λ made. made.0.value.pieces ≡ one_taken (cut_at (rows_for whole) cuts.now)) }
        ensures several { IfOk result (λ made. 1 < length (cut_at (rows_for whole) cuts.now).ends) }
        ensures may { IfOk result (λ made. may_cut (recipe_of whole.recipe) ≡ true) }
        ensures number { IfOk result (λ made. made.1.number ≡ whole.number) }
        ensures first { IfOk result (λ made. IsNext (cut_at (rows_for whole) cuts.now) made.1) }
        ensures first_recipe { IfOk result (λ made. recipe_of made.1.recipe ≡ recipe_of whole.recipe) }
        ensures first_inputs { IfOk result (λ made. made.1.inputs ≡ whole.inputs) }
        ensures first_rises { IfOk result (λ made. made.1.rows.start < made.1.rows.end) }
        ensures first_inside { IfOk result (λ made. made.1.rows.end ≤ rows_for whole) }
        ensures same_number { IfErr result (λ piece. piece.number ≡ whole.number) }
        ensures same_piece { IfErr result (λ piece. piece.piece ≡ whole.piece) }
        ensures same_rows { IfErr result (λ piece. piece.rows ≡ whole.rows) }
        ensures same_recipe { IfErr result (λ piece. recipe_of piece.recipe ≡ recipe_of whole.recipe) }
        ensures same_inputs { IfErr result (λ piece. piece.inputs ≡ whole.inputs) }
    {
        if matches!(whole.recipe.get(), Recipe::Patch(_)) {
            return Err(whole);
        }
        let Some(pieces) = Pieces::cut(alloc, whole.rows.end, cuts) else {
            return Err(whole);
        };
        let Ok(shares) = whole.inputs.share() else {
            return Err(whole);
        };
        CutTask::with_first(alloc, whole, pieces, shares)
    }

    // The task of such pieces, none of which was taken, and the first of them, with shares of the stores.
    fn with_first(
        alloc: Global,
        whole: Piece,
        mut pieces: Pieces,
        shares: Stores,
    ) -> Result<(Box<CutTask>, Piece), Piece>
        requires untaken { pieces.taken < length pieces.ends }
        requires shares { (role : AnyRole) → stored_for shares role ≡ stored_for whole.inputs role }
        ensures recipe { IfOk result (λ made. arc_value made.0.value.recipe ≡ recipe_of whole.recipe) }
        ensures inputs { IfOk result (λ made. (role : AnyRole)
            → stored_for made.0.value.inputs role ≡ stored_for whole.inputs role) }
        ensures pieces { IfOk result (λ made. made.0.value.pieces ≡ one_taken pieces) }
        ensures number { IfOk result (λ made. made.1.number ≡ whole.number) }
        ensures first { IfOk result (λ made. IsNext pieces made.1) }
        ensures first_recipe { IfOk result (λ made. recipe_of made.1.recipe ≡ recipe_of whole.recipe) }
        ensures first_inputs { IfOk result (λ made. made.1.inputs ≡ whole.inputs) }
        ensures first_rises { IfOk result (λ made. made.1.rows.start < made.1.rows.end) }
        ensures first_inside { IfOk result (λ made. made.1.rows.end ≤ pieces.rows) }
        ensures same_number { IfErr result (λ piece. piece.number ≡ whole.number) }
        ensures same_piece { IfErr result (λ piece. piece.piece ≡ whole.piece) }
        ensures same_rows { IfErr result (λ piece. piece.rows ≡ whole.rows) }
        ensures same_recipe { IfErr result (λ piece. recipe_of piece.recipe ≡ recipe_of whole.recipe) }
        ensures same_inputs { IfErr result (λ piece. piece.inputs ≡ whole.inputs) }
    {
        let (recipe, whole) = whole.with_shared(alloc)?;
        let Some((piece, rows)) = pieces.next() else {
            unreachable!()
        };
        let task = CutTask {
            recipe,
            inputs: shares,
            pieces,
        };
        match Box::new(alloc, task) {
            Ok(task) => {
                let first = Piece {
                    piece,
                    rows,
                    ..whole
                };
                Ok((task, first))
            }
            Err(_) => Err(whole),
        }
    }

    // A block for a piece: the blocks of all, once it is the last.
    fn give(&mut self, piece: u64, block: Block) -> Result<Option<Vec<Block>>, Refused>
        ensures answer { result_map_both (option_map (λ blocks. blocks.items)) (λ why. why) result
            ≡ given_to self.old.pieces piece block }
        ensures given { OnOk result (self.new ≡ record self.old { pieces = after_give self.old.pieces piece block }) }
        ensures covers { IfOk result (λ told. IfSome told (λ blocks. Covers 0 self.old.pieces.rows blocks.items)) }
        ensures each { IfOk result (λ told. IfSome told (λ blocks.
            length blocks.items ≡ length self.old.pieces.ends)) }
        ensures refused { OnErr result (self.new ≡ self.old) }
    {
        self.pieces.give(piece, block)
    }

    /// The next piece of the task of a slot, which has one to take.
    pub(crate) fn next(&mut self, number: u64) -> Result<Piece, NoMemory>
        requires { self.old.pieces.taken < length self.old.pieces.ends }
        ensures number { IfOk result (λ piece. piece.number ≡ number) }
        ensures next { IfOk result (IsNext self.old.pieces) }
        ensures recipe_is { IfOk result (λ piece. recipe_of piece.recipe ≡ arc_value self.old.recipe) }
        ensures inputs_are { IfOk result (λ piece. (role : AnyRole)
            → stored_for piece.inputs role ≡ stored_for self.old.inputs role) }
        ensures rises { IfOk result (λ piece. piece.rows.start < piece.rows.end) }
        ensures inside { IfOk result (λ piece. piece.rows.end ≤ self.old.pieces.rows) }
        ensures taken { OnOk result (self.new ≡ record self.old { pieces = one_taken self.old.pieces }) }
        ensures refused { OnErr result (self.new ≡ self.old) }
    {
        let inputs = self.inputs.share()?;
        let recipe = Arc::try_clone(&self.recipe).map_err(|_| NoMemory)?;
        let Some((piece, rows)) = self.pieces.next() else {
            unreachable!()
        };
        Ok(Piece {
            number,
            piece,
            rows,
            recipe: TaskRecipe::Shared(recipe),
            inputs,
        })
    }
}
