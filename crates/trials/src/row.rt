//! Rows of events for a board whose slot 0 is a matrix of four rows and two columns, without entries.
ghost use Rattle.std.specs.Arc.{arc_value};
ghost use Rattle.std.specs.List.{All};
ghost use Rattle.trials.specs.Tries.{IsTry, matrix};
ghost use Rattle.kernel.specs.Covers.{IsPartOf};
ghost use Rattle.model.specs.Object.{no_content};
ghost use Rattle.runner.specs.Tickets.{IsStoreFor};

use board::{Answer, Event, Given, Refusal, Sight};
use kernel::Block;
use std::alloc::{AllocError, Global};
use std::sync::Arc;
use store::{RowBlock, Store};

/// A piece is taken of the slot at this place, its task cut at these rows where it can be.
pub fn take(events: &mut Vec<Event<u64>>, pick: u64, cuts: &[u64]) -> Result<(), AllocError>
    requires { All IsTry events.old.items }
    ensures { All IsTry events.new.items }
{
    let mut copy = Vec::new(*events.allocator());
    copy.extend_from_slice(cuts)?;
    events.push(Event::Take { pick, cuts: copy })?;
    Ok(())
}

/// A piece of slot 0 is given as a block of rows.
pub fn give(
    events: &mut Vec<Event<u64>>,
    piece: u64,
    first: u64,
    past: u64,
) -> Result<(), AllocError>
    requires { All IsTry events.old.items }
    ensures { All IsTry events.new.items }
{
    let block = rows(*events.allocator(), first, past);
    give_block(events, piece, block)
}

/// All of slot 0 is given as the block of a piece.
pub fn give_all(events: &mut Vec<Event<u64>>, piece: u64) -> Result<(), AllocError>
    requires { All IsTry events.old.items }
    ensures { All IsTry events.new.items }
{
    let block = all_rows(*events.allocator());
    give_block(events, piece, block)
}

fn rows(alloc: Global, first: u64, past: u64) -> Block
    ensures { IsPartOf 2 no_content result }
{
    Block::Rows(RowBlock::new(alloc, first, past, 2))
}

fn all_rows(alloc: Global) -> Block
    ensures { IsPartOf 2 no_content result }
{
    Block::Whole(Store::new(alloc, 4, 2))
}

fn give_block(events: &mut Vec<Event<u64>>, piece: u64, block: Block) -> Result<(), AllocError>
    requires events { All IsTry events.old.items }
    requires part { IsPartOf 2 no_content block }
    ensures { All IsTry events.new.items }
{
    let give = Event::Give {
        number: 0,
        piece,
        block,
    };
    events.push(give)?;
    Ok(())
}

/// The store of slot 0 is handed in.
pub fn whole(events: &mut Vec<Event<u64>>, store: &Arc<Store>) -> Result<(), AllocError>
    requires events { All IsTry events.old.items }
    requires store { IsStoreFor matrix (arc_value store.now) }
    ensures { All IsTry events.new.items }
{
    let store = Arc::try_clone(store)?;
    events.push(Event::Whole { number: 0, store })?;
    Ok(())
}

/// Slot 0 fails.
pub fn fail(events: &mut Vec<Event<u64>>) -> Result<(), AllocError>
    requires { All IsTry events.old.items }
    ensures { All IsTry events.new.items }
{
    events.push(Event::Fail(0))?;
    Ok(())
}

/// What answers say, in a word each.
pub fn say(answers: &[Answer], words: &[&str]) -> bool {
    for place in 0..words.len() {
        match answers.get(place) {
            Some(answer) if word(answer) == words[place] => {}
            _ => return false,
        }
    }
    answers.len() == words.len()
}

fn word(answer: &Answer) -> &'static str {
    match answer {
        Answer::Issued(_) => "issued",
        Answer::Taken(Some(_)) => "taken",
        Answer::Taken(None) => "none",
        Answer::Unshared(_) => "unshared",
        Answer::Given(Given::More) => "more",
        Answer::Given(Given::Last(_)) => "last",
        Answer::Done => "done",
        Answer::Seen(Sight::Done) => "there",
        Answer::Seen(Sight::Gone) => "gone",
        Answer::Seen(_) => "to come",
        Answer::Refused(Refusal::Stranger) => "stranger",
        Answer::Refused(Refusal::Twice) => "twice",
        Answer::Refused(Refusal::NoMemory) => "no memory",
    }
}

/// Whether the answer at a place is a piece of slot 0 with this number and these rows.
pub fn is_piece(answers: &[Answer], place: usize, piece: u64, start: u64, end: u64) -> bool {
    let Some(Answer::Taken(Some(taken))) = answers.get(place) else {
        return false;
    };
    taken.number == 0 && taken.piece == piece && taken.rows.start == start && taken.rows.end == end
}
