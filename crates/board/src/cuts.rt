//! What there is of tasks that are cut, at their slots' numbers.
ghost use Rattle.std.specs.Prelude.{◌≡◌, ◌≢◌, ◌<◌, ◌≤◌, ◌&&◌, ◌||◌, ◌==◌, ℕ, Bool as Test, None, Some, IfOk, IfSome};
ghost use Rattle.std.specs.Prelude.{Err, MatchResult, OnErr, OnOk, Ok, false, is_some, length, map, not, slice_set};
ghost use Rattle.std.specs.Prelude.{true};
ghost use Rattle.std.specs.Bool.{OnTrue};
ghost use Rattle.std.specs.Option.{option_and_then, option_map, option_map_or};
ghost use Rattle.kernel.specs.Covers.{Covers};
ghost use Rattle.board.specs.Cuts.{IfSeveral, IsOf, KeepsTask, after_cut, at_slot, cutting_of, has_more, is_open};
ghost use Rattle.board.specs.Cuts.{one_more, task_at, task_of_cut, told_blocks, told_cut};
ghost use Rattle.stages.specs.Numbers.{numbers};
ghost use Rattle.pieces.specs.Parts.{blocks_in};
ghost use Rattle.pieces.specs.declared.part.Part.TheVariants as AnyPart;

use crate::cut::Cut;
use crate::look::Refusal;
use crate::piece::{Given, Piece};
use kernel::Block;
use model::NoMemory;
use stages::withdraw;
use std::collections::VecDeque;

/// Whether a slot's task is cut.
pub(crate) fn is_cut(cuts: &[Option<Cut>], number: u64) -> bool
    ensures { result ≡ is_some (at_slot cuts.now number) }
{
    matches!(cuts.get(number as usize), Some(Some(_)))
}

/// Whether a piece of a slot's task wasn't taken.
pub(crate) fn is_open(cuts: &[Option<Cut>], number: u64) -> bool
    ensures { result ≡ is_open (map (option_map cutting_of) cuts.now) number }
{
    match cuts.get(number as usize) {
        Some(Some(Cut::Underway(task))) => task.pieces.offers(),
        _ => false,
    }
}

/// Makes a place for a slot, and says whether there is one.
pub(crate) fn make_place(cuts: &mut Vec<Option<Cut>>, number: u64) -> bool
    ensures place { OnTrue result (number < length cuts.new.items) }
    ensures same { (k : ℕ) → at_slot cuts.new.items k ≡ at_slot cuts.old.items k }
    ensures within { (n : ℕ) → length cuts.old.items ≤ n → number < n → length cuts.new.items ≤ n }
{
    while cuts.len() as u64 <= number {
        if cuts.push(None).is_err() {
            return false;
        }
    }
    true
}

/// The next piece of a slot's task, which has one to take.
pub(crate) fn next_of(cuts: &mut Vec<Option<Cut>>, number: u64) -> Result<Piece, NoMemory>
    requires { is_open (map (option_map cutting_of) cuts.old.items) number ≡ true }
    ensures piece { IfOk result (λ piece. IfSome (task_at cuts.old.items number) (λ task. IsOf number task piece)) }
    ensures task { OnOk result (task_at cuts.new.items number ≡ option_map one_more (task_at cuts.old.items number)) }
    ensures others { (k : ℕ) → k ≢ number → at_slot cuts.new.items k ≡ at_slot cuts.old.items k }
    ensures sized { length cuts.new.items ≡ length cuts.old.items }
    ensures refused { OnErr result (cuts.new.items ≡ cuts.old.items) }
{
    next_in(&mut cuts[number as usize], number)
}

// The next piece of the task at the place of its slot.
fn next_in(place: &mut Option<Cut>, number: u64) -> Result<Piece, NoMemory>
    requires { option_map_or has_more (option_map cutting_of place.old) false ≡ true }
    ensures piece { IfOk result (λ piece.
        IfSome (option_and_then task_of_cut place.old) (λ task. IsOf number task piece)) }
    ensures task { OnOk result (option_and_then task_of_cut place.new
        ≡ option_map one_more (option_and_then task_of_cut place.old)) }
    ensures refused { OnErr result (place.new ≡ place.old) }
{
    match place {
        Some(Cut::Underway(task)) => task.next(number),
        _ => unreachable!(),
    }
}

/// A block for a piece of a slot's task, which is cut.
pub(crate) fn give_to(
    cuts: &mut Vec<Option<Cut>>,
    number: u64,
    piece: u64,
    block: Block,
) -> Result<Given, Refusal>
    requires { is_some (at_slot cuts.old.items number) ≡ true }
    ensures answer { IfSome (at_slot cuts.old.items number) (λ cut. MatchResult result
        (λ given. told_cut (cutting_of cut) piece block ≡ Ok (told_blocks given))
        (λ why. told_cut (cutting_of cut) piece block ≡ Err why)) }
    ensures left { IfOk result (λ given. IfSome (at_slot cuts.old.items number) (λ cut.
        option_map cutting_of (at_slot cuts.new.items number)
        ≡ Some (after_cut (cutting_of cut) piece block (told_blocks given)))) }
    ensures keeps { OnOk result (KeepsTask (task_at cuts.old.items number) (task_at cuts.new.items number)) }
    ensures covers { IfOk result (λ given. IfSome (task_at cuts.old.items number) (λ task.
        IfSeveral given (Covers 0 task.pieces.rows))) }
    ensures among { IfOk result (λ given. IfSome (task_at cuts.old.items number) (λ task. IfSeveral given (λ blocks.
        blocks ≡ blocks_in (slice_set task.pieces.parts piece (AnyPart.Given block))))) }
    ensures others { (k : ℕ) → k ≢ number → at_slot cuts.new.items k ≡ at_slot cuts.old.items k }
    ensures sized { length cuts.new.items ≡ length cuts.old.items }
    ensures refused { OnErr result (cuts.new.items ≡ cuts.old.items) }
{
    match &mut cuts[number as usize] {
        Some(cut) => cut.give(piece, block),
        None => unreachable!(),
    }
}

/// A slot isn't among those of whose tasks a piece wasn't taken, where all pieces of its own were.
pub(crate) fn withdraw_if_taken(cuts: &[Option<Cut>], parted: &mut VecDeque<u64>, number: u64)
    ensures { (p : ℕ → Test) (n : ℕ) → parted.old.items ≡ numbers p n → number < n
        → parted.new.items ≡ numbers (λ k. p k
        && (is_open (map (option_map cutting_of) cuts.now) number || not (k == number))) n }
{
    if !is_open(cuts, number) {
        withdraw(parted, number);
    }
}

/// There is nothing of a slot's task any more.
pub(crate) fn forget(cuts: &mut Vec<Option<Cut>>, parted: &mut VecDeque<u64>, number: u64)
    ensures cuts { cuts.new.items ≡ slice_set cuts.old.items number None }
    ensures numbers { (p : ℕ → Test) (n : ℕ) → parted.old.items ≡ numbers p n → number < n
        → parted.new.items ≡ numbers (λ k. p k && not (k == number)) n }
{
    if let Some(place) = cuts.get_mut(number as usize) {
        *place = None;
    }
    withdraw(parted, number);
}
