//! Logs, their names, and notes of places in them.
ghost use Rattle.std.specs.Prelude.{◌≡◌, IfOk, IfSome};
ghost use Rattle.std.specs.Option.{option_map};
ghost use Rattle.history.specs.Histories.{object_of};
ghost use Rattle.journal.specs.Inputs.{told_by};
ghost use Rattle.model.specs.Object.{IsObject};
ghost use Rattle.runner.specs.Tickets.{Fit, made_by};

use crate::entry::{Entry, Input, Inputs};
use boxcar::Pushed;
use calls::{Recipe, Roles};
use history::Noted;
use model::NoMemory;
use std::alloc::Global;
use std::marker::{Brand, Model, PhantomData};
use std::snapshot::Snapshot;
use std::sync::Wait;

/// The name of a log. Notes of one name are of one log.
pub trait Naming {
    ghost use Rattle.boxcar.specs.Table.{Shelves};

    ghost log: { Shelves };
}

impl Naming for Brand {
    ghost use Rattle.std.specs.Prelude.{[]};

    ghost log = { record { tag = []; buckets = [] } };
}

/// A log. Contracts see which it is.
#[derive(Drop)]
pub struct Log {
    entries: boxcar::Vec<Entry>,
}

impl Model for Log {
    ghost use Rattle.boxcar.specs.Table.{Shelves, shelves_coded};

    ghost Value = { Shelves };

    ghost coded = { shelves_coded };

    ghost view = { λ l. l.entries };
}

/// A place in the log of a name. Contracts see the object that was submitted there.
#[derive(Drop)]
pub struct Note<J: Naming> {
    token: Pushed<Entry>,
    of: PhantomData<J>,
}

impl<J: Naming> Model for Note<J> {
    ghost use Rattle.boxcar.specs.Table.{Shows};
    ghost use Rattle.history.specs.Histories.{Told, object_in};
    ghost use Rattle.model.specs.Object.{IsObject};

    ghost Value = { Told };

    ghost view = { λ n. record { place = n.token.index; made = n.token.value.1 } };

    ghost invariant = { λ n. Shows J.log n.token × IsObject (object_in n.token.value.1) };
}

impl<J: Naming> Noted for Note<J> {
    type Log = Log;

    ghost told = { λ note. note };

    ghost is_of = { λ log. log ≡ J.log };

    fn again(&self) -> Note<J> {
        Note {
            token: self.token.again(),
            of: PhantomData,
        }
    }

    fn agrees(&self, log: &Log, other: &Note<J>) -> bool {
        if self.token.index() != other.token.index() {
            return false;
        }
        log.entries.agrees(&self.token, &other.token);
        true
    }
}

impl Log {
    /// A log with nothing in it.
    pub fn new(alloc: Global) -> Result<Log, NoMemory> {
        let Ok(entries) = boxcar::Vec::new(alloc) else {
            return Err(NoMemory);
        };
        Ok(Log { entries })
    }

    /// The entry that a note is of, where there is a note.
    fn seen<J: Naming>(&self, note: Option<&Note<J>>) -> Input
        requires { self.now ≡ J.log }
        ensures made { option_map (λ v. v.1) (told_by result)
            ≡ option_map (λ told. told.made) (option_map (λ note. note.now) note.entry) }
        ensures is_object { IfSome (option_map (λ note. note.now) note.entry) (λ note. IsObject (object_of note)) }
    {
        match note {
            Some(note) => Input::There(Snapshot::of(self.entries.value(&note.token))),
            None => Input::Absent,
        }
    }

    /// Adds what a recipe makes of what its inputs are. It takes no memory but for the place.
    pub fn note<J: Naming>(
        &self,
        rt: &impl Wait,
        recipe: &Recipe,
        inputs: Roles<&Note<J>>,
    ) -> Result<Note<J>, NoMemory>
        requires name { self.now ≡ J.log }
        requires fits { Fit object_of recipe.now inputs }
        ensures object { IfOk result (λ note. object_of note ≡ made_by object_of recipe.now inputs.entry) }
        ensures is_object { IfOk result (λ note. IsObject (object_of note)) }
    {
        let seen = Inputs {
            old: self.seen(inputs.old),
            mask: self.seen(inputs.mask),
            first: self.seen(inputs.first),
            second: self.seen(inputs.second),
        };
        let entry = Entry {
            recipe: Snapshot::of(recipe),
            inputs: Snapshot::of(&seen),
        };
        let Ok(token) = self.entries.push_shown(rt, entry) else {
            return Err(NoMemory);
        };
        Ok(Note {
            token,
            of: PhantomData,
        })
    }
}
