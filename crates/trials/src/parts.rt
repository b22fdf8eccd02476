//! Rows that are cut, and blocks that come back in another order than their pieces were taken in.
use kernel::Block;
use pieces::{Pieces, Refused};
use std::alloc::{AllocError, Global};
use store::{RowBlock, Store};

// Some rows of one column, without entries.
fn rows(alloc: Global, first: u64, past: u64) -> Block {
    Block::Rows(RowBlock::new(alloc, first, past, 1))
}

// Four rows, cut once, in the middle.
fn halves(alloc: Global) -> Result<Pieces, AllocError> {
    match Pieces::cut(alloc, 4, &[0, 2, 2, 4]) {
        Some(pieces) => Ok(pieces),
        None => Err(AllocError),
    }
}

// The first row of a block, where it is one of rows.
fn first_row(block: Option<&Block>) -> Option<u64> {
    match block {
        Some(Block::Rows(rows)) => Some(rows.first()),
        _ => None,
    }
}

#[test]
fn pieces_are_taken_in_the_order_of_their_rows(rt: HostRuntime) -> Result<(), AllocError> {
    let mut pieces = halves(rt.alloc())?;
    assert!(rt; pieces.offers());
    let Some((first, first_rows)) = pieces.next() else {
        return Err(AllocError);
    };
    assert!(rt; first == 0 && first_rows.start == 0 && first_rows.end == 2);
    let Some((second, second_rows)) = pieces.next() else {
        return Err(AllocError);
    };
    assert!(rt; second == 1 && second_rows.start == 2 && second_rows.end == 4);
    assert!(rt; !pieces.offers());
    assert!(rt; pieces.next().is_none());
    Ok(())
}

#[test]
fn cuts_that_cut_nothing_make_no_pieces(rt: HostRuntime) {
    let alloc = rt.alloc();
    assert!(rt; Pieces::cut(alloc, 4, &[]).is_none());
    assert!(rt; Pieces::cut(alloc, 4, &[0, 4, 9]).is_none());
    assert!(rt; Pieces::cut(alloc, 0, &[0, 1]).is_none());
}

#[test]
fn a_block_is_accepted_of_a_piece_that_is_out(rt: HostRuntime) -> Result<(), AllocError> {
    let alloc = rt.alloc();
    let mut pieces = halves(alloc)?;
    assert!(rt; pieces.next().is_some());
    assert!(rt; matches!(pieces.give(1, rows(alloc, 2, 4)), Err(Refused::Stranger)));
    assert!(rt; matches!(pieces.give(0, rows(alloc, 0, 1)), Err(Refused::Stranger)));
    let whole = Block::Whole(Store::new(alloc, 4, 1));
    assert!(rt; matches!(pieces.give(0, whole), Err(Refused::Stranger)));
    assert!(rt; matches!(pieces.give(0, rows(alloc, 0, 2)), Ok(None)));
    assert!(rt; matches!(pieces.give(0, rows(alloc, 0, 2)), Err(Refused::Twice)));
    assert!(rt; matches!(pieces.give(2, rows(alloc, 4, 6)), Err(Refused::Stranger)));
    Ok(())
}

#[test]
fn the_last_block_hands_out_all_in_order(rt: HostRuntime) -> Result<(), AllocError> {
    let alloc = rt.alloc();
    let mut pieces = halves(alloc)?;
    assert!(rt; pieces.next().is_some() && pieces.next().is_some());
    assert!(rt; matches!(pieces.give(1, rows(alloc, 2, 4)), Ok(None)));
    let Ok(Some(blocks)) = pieces.give(0, rows(alloc, 0, 2)) else {
        return Err(AllocError);
    };
    assert!(rt; blocks.len() == 2);
    assert!(rt; first_row(blocks.get(0)) == Some(0) && first_row(blocks.get(1)) == Some(2));
    assert!(rt; matches!(pieces.give(1, rows(alloc, 2, 4)), Err(Refused::Twice)));
    Ok(())
}
