//! Histories, their names, and notes of places in them.
ghost use Rattle.std.specs.Prelude.{◌≡◌, IfSome};
ghost use Rattle.std.specs.Option.{option_map};
ghost use Rattle.calls.specs.declared.role.Role.{Role as AnyRole};
ghost use Rattle.history.specs.Histories.{object_of};
ghost use Rattle.model.specs.Object.{IsObject};
ghost use Rattle.runner.specs.Tickets.{Fit, lent_in, made_by};

use crate::made::Made;
use crate::noted::Noted;
use crate::rule::{Add, Law, Nothing};
use calls::{Recipe, Roles};
use logbook::{Offer, Plain, Seen, Start, Word};
use std::marker::{Brand, Model, PhantomData};

/// The name of a history. Notes of one name are of one history.
pub trait Naming {
    ghost use Rattle.logbook.specs.Pages.{Book};

    ghost book: { Book };
}

impl Naming for Brand {
    ghost book = { record { number = 0; log_name = 0; cells_name = 0 } };
}

/// A recipe that is submitted, and notes of what its inputs are.
#[derive(Drop)]
struct Submitted<'a, J: Naming> {
    recipe: &'a Recipe,
    inputs: Roles<&'a Note<J>>,
}

/// What is added is what the recipe makes of its inputs.
impl<'a, J: Naming> Plain<Submitted<'a, J>, Made, ()> for Add {
    ghost use Rattle.std.specs.Prelude.{None};
    ghost use Rattle.history.specs.Histories.{made_from, object_of};
    ghost use Rattle.runner.specs.Tickets.{made_by};

    ghost ask = { λ call. made_from (made_by object_of call.recipe.now call.inputs) };

    ghost state = { λ call. None };
}

/// A history. Contracts see which it is.
#[derive(Drop)]
pub struct History {
    next: u64,
    head: Word<Made, (), Law>,
    seen: Seen<Made, (), Law>,
}

impl Model for History {
    ghost use Rattle.std.specs.Prelude.{◌≡◌, length};
    ghost use Rattle.logbook.specs.Pages.{Book, book_coded};
    ghost use Rattle.history.specs.Histories.{head_of};

    ghost Value = { Book };

    ghost coded = { book_coded };

    ghost view = { λ h. h.seen.book };

    ghost invariant = { λ h. (h.head ≡ head_of h.seen.book) × (h.next ≡ length h.seen.log) };
}

/// A place in the history of a name. Contracts see the object that was submitted there.
#[derive(Drop)]
pub struct Note<J: Naming> {
    place: u64,
    seen: Seen<Made, (), Law>,
    of: PhantomData<J>,
}

impl<J: Naming> Model for Note<J> {
    ghost use Rattle.std.specs.Prelude.{◌≡◌, ◌<◌, length};
    ghost use Rattle.history.specs.Histories.{Told, made_at, object_in};
    ghost use Rattle.model.specs.Object.{IsObject};

    ghost Value = { Told };

    ghost view = { λ n. record { place = n.place; made = made_at n.seen.log n.place } };

    ghost invariant = { λ n. (n.seen.book ≡ J.book) × (n.place < length n.seen.log)
        × IsObject (object_in (made_at n.seen.log n.place)) };
}

impl<J: Naming> Noted for Note<J> {
    type Log = History;

    ghost told = { λ note. note };

    ghost is_of = { λ history. Unit {0} };

    fn again(&self) -> Note<J> {
        Note {
            place: self.place,
            seen: self.seen.again(),
            of: PhantomData,
        }
    }

    fn agrees(&self, _history: &History, other: &Note<J>) -> bool {
        let mut both = self.seen.again();
        both.learn(&other.seen);
        self.place == other.place
    }
}

impl<J: Naming> Note<J> {
    /// What it stands for is an object.
    fn is_sound(&self)
        ensures { IsObject (object_of self.now) }
    {
        let _ = &self.place;
    }
}

/// What notes that take roles stand for are objects.
fn are_sound<J: Naming>(notes: &Roles<&Note<J>>)
    ensures { (role : AnyRole) → IfSome (lent_in notes.now role) (λ note. IsObject (object_of note)) }
{
    is_sound_if(notes.old);
    is_sound_if(notes.mask);
    is_sound_if(notes.first);
    is_sound_if(notes.second);
}

/// What a note stands for is an object, where there is a note.
fn is_sound_if<J: Naming>(note: Option<&Note<J>>)
    ensures { IfSome (option_map (λ note. note.now) note.entry) (λ note. IsObject (object_of note)) }
{
    if let Some(note) = note {
        note.is_sound();
    }
}

impl History {
    /// A history in which nothing was submitted.
    pub fn new() -> History {
        let (seen, mut first, _second) = Seen::open(Start::alone(), 0, 0);
        History {
            next: 0,
            head: Word::tracked(0, &mut first),
            seen,
        }
    }

    /// Adds what a recipe makes of what its inputs are. None where there is no number left for it.
    pub fn note<J: Naming>(&mut self, recipe: &Recipe, inputs: Roles<&Note<J>>) -> Option<Note<J>>
        requires name { self.old ≡ J.book }
        requires fits { Fit object_of recipe.now inputs }
        ensures object { IfSome result (λ note. object_of note ≡ made_by object_of recipe.now inputs.entry) }
        ensures is_object { IfSome result (λ note. IsObject (object_of note)) }
        ensures same { self.new ≡ self.old }
    {
        are_sound(&inputs);
        let place = self.next;
        if place == u64::MAX {
            return None;
        }
        let mut offer: Offer<Made, (), Law, Nothing> = self
            .seen
            .plain::<Nothing, Submitted<'_, J>, Add>(&Submitted { recipe, inputs });
        let mut pen = self.seen.no_pen();
        let found = self
            .head
            .compare_exchange::<Add, Nothing>(
                place,
                place + 1,
                &mut self.seen,
                &mut offer,
                &mut pen,
            );
        if found != place {
            self.next = found;
            return None;
        }
        self.next = place + 1;
        Some(Note {
            place,
            seen: self.seen.again(),
            of: PhantomData,
        })
    }
}
