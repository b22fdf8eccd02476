//! Lists of events.
ghost use Rattle.board.specs.Boards.{shown};
ghost use Rattle.std.specs.Prelude.{◌≡◌, IfOk, MatchResult, OnErr};
ghost use Rattle.board.specs.Looks.{seen_in};
ghost use Rattle.board.specs.Schedules.{seen_as};

use crate::board::Board;
use crate::look::{Look, Refusal};
use crate::piece::{Given, Piece};
use calls::{Recipe, Roles};
use kernel::Block;
use model::NoMemory;
use std::sync::Arc;
use store::Store;

/// An event of a board: the call of its name.
#[derive(Drop)]
pub enum Event<N> {
    Issue {
        note: N,
        recipe: Recipe,
        inputs: Roles<u64>,
    },
    Take {
        pick: u64,
        cuts: Vec<u64>,
    },
    Give {
        number: u64,
        piece: u64,
        block: Block,
    },
    Whole {
        number: u64,
        store: Arc<Store>,
    },
    Fail(u64),
    Hold(u64),
    LetGo(u64),
    Look(u64),
}

/// What an event is answered.
#[derive(Drop)]
pub enum Answer {
    /// The slot that is new.
    Issued(u64),
    /// The piece that is out; none where no slot offers one.
    Taken(Option<Piece>),
    /// A share of a store was refused to this slot, which would have been taken.
    Unshared(u64),
    Given(Given),
    Done,
    /// What there is of a slot.
    Seen(Sight),
    Refused(Refusal),
}

/// What there is of a slot, whose store isn't lent.
#[derive(Clone, Copy, Debug, PartialEq, Eq)]
pub enum Sight {
    Unfinished,
    Done,
    Failed,
    Gone,
}

impl<N: Drop> Board<N> {
    ghost use Rattle.board.specs.Schedules.{AreAnswered, AreRight, IsAnswered, IsRight};

    /// Does events in order, and gives their answers; after a refusal it goes on. It makes the room for all answers
    /// first: where that is refused, nothing was done.
    pub fn run(&mut self, events: Vec<Event<N>>) -> Result<Vec<Answer>, NoMemory>
        requires { AreRight (shown self.old) events.items }
        ensures answers { IfOk result (λ answers.
            AreAnswered (shown self.old) events.items answers.items (shown self.new)) }
        ensures refused { OnErr result (shown self.new ≡ shown self.old) }
    {
        let mut answers = Vec::with_capacity(*events.allocator(), events.len())?;
        for event in events {
            answers.push_reserved(self.answer(event));
        }
        Ok(answers)
    }

    /// Does an event.
    fn answer(&mut self, event: Event<N>) -> Answer
        requires { IsRight (shown self.old) event }
        ensures { IsAnswered (shown self.old) event result (shown self.new) }
    {
        match event {
            Event::Issue {
                note,
                recipe,
                inputs,
            } => match self.issue(note, recipe, inputs) {
                Ok(number) => Answer::Issued(number),
                Err(refusal) => Answer::Refused(refusal),
            },
            Event::Take { pick, cuts } => match self.take(pick, &cuts) {
                Ok(piece) => Answer::Taken(piece),
                Err(number) => Answer::Unshared(number),
            },
            Event::Give {
                number,
                piece,
                block,
            } => match self.give(number, piece, block) {
                Ok(given) => Answer::Given(given),
                Err(refusal) => Answer::Refused(refusal),
            },
            Event::Whole { number, store } => done(self.whole(number, store)),
            Event::Fail(number) => done(self.fail(number)),
            Event::Hold(number) => done(self.hold(number)),
            Event::LetGo(number) => done(self.let_go(number)),
            Event::Look(number) => Answer::Seen(sight_of(self.look(number))),
        }
    }
}

/// What an event is answered that has nothing to answer but that it was done.
fn done(outcome: Result<(), Refusal>) -> Answer
    ensures { MatchResult outcome (λ _. result ≡ Answer.Done) (λ why. result ≡ Answer.Refused why) }
{
    match outcome {
        Ok(()) => Answer::Done,
        Err(refusal) => Answer::Refused(refusal),
    }
}

/// What there is of a slot, without its store.
fn sight_of(look: Look<'_>) -> Sight
    ensures { seen_as result ≡ seen_in look.entry }
{
    match look {
        Look::Unfinished => Sight::Unfinished,
        Look::Done(_) => Sight::Done,
        Look::Failed => Sight::Failed,
        Look::Gone => Sight::Gone,
    }
}
