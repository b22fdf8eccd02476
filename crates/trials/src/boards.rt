//! Boards, event by event: what comes back in another order than it was taken in, or twice, and tasks that are cut.
ghost use Rattle.std.specs.Prelude.{◌≡◌, ℕ, IfOk, None};
ghost use Rattle.std.specs.Arc.{arc_value};
ghost use Rattle.std.specs.List.{All};
ghost use Rattle.algebra.specs.declared.domain.Domain.TheVariants.{Int64};
ghost use Rattle.board.specs.Boards.{cuts_of, view_of};
ghost use Rattle.stages.specs.Tasks.{object_at};
ghost use Rattle.desk.specs.Works.{AreUncut};
ghost use Rattle.trials.specs.Tries.{IsTry, matrix};
ghost use Rattle.model.specs.declared.shape.Shape.TheVariants.{Two};
ghost use Rattle.runner.specs.Tickets.{IsStoreFor};
ghost use Rattle.store.specs.Stored.{content_of};

use crate::row;
use algebra::Domain;
use board::{Answer, Board, Event, Look, Piece, Stores};
use calls::{Given, Patch, Recipe, Roles, Shape, Signature, Transpose};
use desk::{Order, take, work};
use kernel::OneThread;
use std::alloc::{AllocError, Global};
use std::sync::Arc;
use store::Store;

// A matrix of so many rows and two columns, without entries.
fn given(alloc: Global, rows: u64) -> Result<Box<Given>, AllocError>
    ensures domain { IfOk result (λ given. given.value.of.domain ≡ Int64) }
    ensures shape { IfOk result (λ given. given.value.of.shape ≡ Two rows 2) }
    ensures empty { IfOk result (λ given. (i j : ℕ) → content_of (arc_value given.value.store) i j ≡ None) }
{
    let of = Signature {
        domain: Domain::Int64,
        shape: Shape::Two(rows, 2),
    };
    let store = Arc::new(alloc, Store::new(alloc, rows, 2))?;
    Ok(Box::new(alloc, Given { of, store })?)
}

// A board on which slot 0 is a matrix that is there, slot 1 a patch of it, and slot 2 its transpose.
fn patched_and_read(alloc: Global) -> Result<Board<u64>, AllocError>
    ensures { IfOk result (λ board. AreUncut (cuts_of board)) }
{
    let given = given(alloc, 2)?;
    let of = given.of;
    let mut board = Board::new(alloc);
    board.issue_given(0, given).map_err(|_| AllocError)?;
    let edits = Vec::new(alloc);
    let patch = Recipe::Patch(Box::new(alloc, Patch { of, edits })?);
    let transpose = Recipe::Transposed(Box::new(alloc, Transpose { of })?);
    let first = Roles {
        first: Some(0),
        ..Roles::none()
    };
    board
        .issue(1, patch, Roles::of_old(0))
        .map_err(|_| AllocError)?;
    board.issue(2, transpose, first).map_err(|_| AllocError)?;
    Ok(board)
}

#[test]
fn a_patch_that_is_taken_last_has_the_store_itself(rt: HostRuntime) -> Result<(), AllocError> {
    let alloc = rt.alloc();
    let mut board = patched_and_read(alloc)?;
    assert!(rt; board.let_go(0).is_ok());
    assert!(rt; matches!(board.look(0), Look::Done(_)));
    // The transpose is the newest of the two.
    let Some(mut transpose) = take(&mut Order::Last, &mut board) else {
        return Err(AllocError);
    };
    work(&OneThread, alloc, &mut board, &mut transpose).map_err(|_| AllocError)?;
    drop(transpose);
    assert!(rt; matches!(board.look(0), Look::Done(_)));
    let Some(piece) = take(&mut Order::First, &mut board) else {
        return Err(AllocError);
    };
    let Piece { number, inputs, .. } = piece;
    let Stores { old, .. } = inputs;
    let Some(store) = old else {
        return Err(AllocError);
    };
    assert!(rt; number == 1 && Arc::try_unwrap(store).is_ok());
    assert!(rt; matches!(board.look(0), Look::Gone));
    Ok(())
}

#[test]
fn a_patch_that_is_taken_while_another_reads_shares_the_store(
    rt: HostRuntime,
) -> Result<(), AllocError> {
    let alloc = rt.alloc();
    let mut board = patched_and_read(alloc)?;
    assert!(rt; board.let_go(0).is_ok());
    let Some(mut patch) = take(&mut Order::First, &mut board) else {
        return Err(AllocError);
    };
    let Some(mut transpose) = take(&mut Order::First, &mut board) else {
        return Err(AllocError);
    };
    assert!(rt; patch.number == 1 && transpose.number == 2);
    assert!(rt; matches!(board.look(0), Look::Done(_)));
    work(&OneThread, alloc, &mut board, &mut patch).map_err(|_| AllocError)?;
    assert!(rt; matches!(board.look(0), Look::Done(_)));
    work(&OneThread, alloc, &mut board, &mut transpose).map_err(|_| AllocError)?;
    assert!(rt; matches!(board.look(0), Look::Gone));
    assert!(rt; matches!(board.look(1), Look::Done(_)) && matches!(board.look(2), Look::Done(_)));
    Ok(())
}

// A board on which slot 0 is a task, the store of a matrix of four rows; and that store.
fn with_task(alloc: Global) -> Result<(Board<u64>, Arc<Store>), AllocError>
    ensures object { IfOk result (λ made. object_at (view_of made.0).tasks 0 ≡ matrix) }
    ensures store { IfOk result (λ made. IsStoreFor matrix (arc_value made.1)) }
{
    let given = given(alloc, 4)?;
    let store = Arc::try_clone(&given.store)?;
    let mut board = Board::new(alloc);
    let Ok(_) = board.issue(0, Recipe::Given(given), Roles::none()) else {
        return Err(AllocError);
    };
    Ok((board, store))
}

// What a board answers to a row of events.
fn told(board: &mut Board<u64>, events: Vec<Event<u64>>) -> Result<Vec<Answer>, AllocError>
    requires task { object_at (view_of board.old).tasks 0 ≡ matrix }
    requires tries { All IsTry events.items }
{
    board.run(events).map_err(|_| AllocError)
}

#[test]
fn a_piece_is_given_once(rt: HostRuntime) -> Result<(), AllocError> {
    let alloc = rt.alloc();
    let (mut board, _) = with_task(alloc)?;
    let mut events = Vec::new(alloc);
    row::take(&mut events, 0, &[])?;
    row::give_all(&mut events, 1)?;
    row::give_all(&mut events, 0)?;
    row::give_all(&mut events, 0)?;
    row::take(&mut events, 0, &[])?;
    let answers = told(&mut board, events)?;
    assert!(rt; row::say(&answers, &["taken", "stranger", "last", "twice", "none"]));
    Ok(())
}

#[test]
fn a_piece_of_a_slot_that_failed_is_a_stranger(rt: HostRuntime) -> Result<(), AllocError> {
    let alloc = rt.alloc();
    let (mut board, _) = with_task(alloc)?;
    let mut events = Vec::new(alloc);
    row::take(&mut events, 0, &[])?;
    row::fail(&mut events)?;
    row::give_all(&mut events, 0)?;
    row::take(&mut events, 0, &[])?;
    let answers = told(&mut board, events)?;
    assert!(rt; row::say(&answers, &["taken", "done", "stranger", "none"]));
    Ok(())
}

#[test]
fn a_slot_is_whole_once_its_piece_was_given(rt: HostRuntime) -> Result<(), AllocError> {
    let alloc = rt.alloc();
    let (mut board, store) = with_task(alloc)?;
    let mut events = Vec::new(alloc);
    row::take(&mut events, 0, &[])?;
    row::whole(&mut events, &store)?;
    row::give_all(&mut events, 0)?;
    row::whole(&mut events, &store)?;
    let answers = told(&mut board, events)?;
    assert!(rt; row::say(&answers, &["taken", "stranger", "last", "done"]));
    assert!(rt; row::is_piece(&answers, 0, 0, 0, 4));
    assert!(rt; matches!(board.look(0), Look::Done(_)));
    Ok(())
}

#[test]
fn a_task_is_cut_at_each_cut_inside_its_rows(rt: HostRuntime) -> Result<(), AllocError> {
    let alloc = rt.alloc();
    let (mut board, store) = with_task(alloc)?;
    let mut events = Vec::new(alloc);
    row::take(&mut events, 0, &[0, 2, 2, 4])?;
    row::give(&mut events, 1, 2, 4)?;
    row::give(&mut events, 0, 0, 2)?;
    row::give(&mut events, 0, 0, 2)?;
    row::whole(&mut events, &store)?;
    row::take(&mut events, 9, &[])?;
    row::give(&mut events, 1, 2, 4)?;
    row::give(&mut events, 1, 2, 4)?;
    row::whole(&mut events, &store)?;
    row::take(&mut events, 0, &[])?;
    let answers = told(&mut board, events)?;
    let words = [
        "taken", "stranger", "more", "twice", "stranger", "taken", "last", "twice", "done", "none",
    ];
    assert!(rt; row::say(&answers, &words));
    assert!(rt; row::is_piece(&answers, 0, 0, 0, 2) && row::is_piece(&answers, 5, 1, 2, 4));
    Ok(())
}

#[test]
fn a_piece_of_a_cut_task_that_failed_is_a_stranger(rt: HostRuntime) -> Result<(), AllocError> {
    let alloc = rt.alloc();
    let (mut board, _) = with_task(alloc)?;
    let mut events = Vec::new(alloc);
    row::take(&mut events, 0, &[2])?;
    row::fail(&mut events)?;
    row::give(&mut events, 0, 0, 2)?;
    row::take(&mut events, 0, &[])?;
    let answers = told(&mut board, events)?;
    assert!(rt; row::say(&answers, &["taken", "done", "stranger", "none"]));
    Ok(())
}
