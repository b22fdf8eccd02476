//! Lists of values at positions.
ghost use Rattle.std.specs.Prelude.{◌≡◌, ◌<◌, ◌^◌, IfOk, map};
ghost use Rattle.std.specs.List.{All, AllPairs};
ghost use Rattle.algebra.specs.declared.domain.Domain.TheVariants.{Uint64};
ghost use Rattle.model.specs.Builds.{AreEntriesOf, are_apart, are_inside, are_of_kind, are_single, are_values_of};
ghost use Rattle.model.specs.Builds.{entry_of};
ghost use Rattle.model.specs.Entries.{IsNotBehind};

use crate::{Entry, NoMemory, Place, Shape};
use algebra::Domain;
use std::alloc::Global;
use std::marker::Model;

/// A value at a position (a tuple of `GrB_Matrix_build`).
#[derive(Clone, Copy)]
pub struct Tuple {
    pub place: Place,
    pub value: i128,
}

/// Tuples in the order of their list.
#[derive(Drop)]
pub struct TupleList {
    items: Vec<Tuple>,

    // As entries, which are half as large as tuples, so that sorting moves less.
    sorted: Vec<Entry>,
}

impl Model for TupleList {
    ghost use Rattle.std.specs.Prelude.{List};
    ghost use Rattle.model.specs.Builds.{AreEntriesOf};
    ghost use Rattle.model.specs.declared.tuples.Tuple.{Tuple};

    ghost Value = { List Tuple };

    ghost view = { λ l. l.items.items };

    ghost invariant = { λ l. AreEntriesOf l.items.items l.sorted.items };
}

impl TupleList {
    /// These tuples. It keeps their entries by rows and columns, which it sorts, in linear time where they
    /// come so already.
    pub fn new(items: Vec<Tuple>) -> Result<TupleList, NoMemory>
        ensures { IfOk result (λ tuples. tuples ≡ items.items) }
    {
        let mut sorted = entries_of(*items.allocator(), &items)?;
        sorted.sort_by_key(Entry::key)?;
        Ok(TupleList { items, sorted })
    }

    /// The tuples in the order of their list.
    pub fn as_slice(&self) -> &[Tuple]
        ensures { result.now ≡ self.now }
    {
        self.items.as_slice()
    }

    /// The entries of the tuples by rows and columns, those of one position in the order of the tuples'
    /// list. Their words are the values modulo 2^64, which for values of a domain are its words.
    pub fn sorted(&self) -> &[Entry]
        ensures { AreEntriesOf self.now result.now }
    {
        self.sorted.as_slice()
    }

    /// Whether each has as many indices as a shape has dimensions.
    pub fn are_of_kind(&self, shape: Shape) -> bool
        ensures { result ≡ are_of_kind shape self.now }
    {
        are_of_kind(shape, self.items.as_slice())
    }

    /// Whether each lies inside a shape.
    pub fn are_inside(&self, shape: Shape) -> bool
        ensures { result ≡ are_inside shape self.now }
    {
        are_inside(shape, self.items.as_slice())
    }

    /// Whether each value is one of a domain.
    pub fn are_values_of(&self, domain: Domain) -> bool
        ensures { result ≡ are_values_of domain self.now }
    {
        are_values_of(domain, self.items.as_slice())
    }

    /// Whether no position is listed twice.
    pub fn are_single(&self) -> bool
        ensures { result ≡ are_single self.now }
    {
        are_apart(self.sorted.as_slice())
    }
}

fn are_of_kind(shape: Shape, tuples: &[Tuple]) -> bool
    ensures { result ≡ are_of_kind shape tuples.now }
{
    tuples.iter().all(|tuple| tuple.place.is_of_kind(shape))
}

fn are_inside(shape: Shape, tuples: &[Tuple]) -> bool
    ensures { result ≡ are_inside shape tuples.now }
{
    tuples.iter().all(|tuple| tuple.place.is_inside(shape))
}

fn are_values_of(domain: Domain, tuples: &[Tuple]) -> bool
    ensures { result ≡ are_values_of domain tuples.now }
{
    tuples
        .iter()
        .all(|tuple| domain.word_of(tuple.value).is_some())
}

/// The entries of tuples, with their values modulo 2^64.
fn entries_of(alloc: Global, tuples: &[Tuple]) -> Result<Vec<Entry>, NoMemory>
    ensures items { IfOk result (λ entries. entries.items ≡ map (entry_of Uint64) tuples.now) }
    ensures cols { IfOk result (λ entries. All (λ e. e.col < 2 ^ 64) entries.items) }
{
    let entries = tuples
        .iter()
        .map(|tuple| Entry {
            row: tuple.place.row(),
            col: tuple.place.col(),
            word: Domain::Uint64.wrapped(tuple.value),
        })
        .collect(alloc)?;
    Ok(entries)
}

/// Whether no two entries that stand row by row are of one position. Those of one stand side by side.
fn are_apart(sorted: &[Entry]) -> bool
    requires { AllPairs IsNotBehind sorted.now }
    ensures { result ≡ are_apart sorted.now }
{
    let Some((first, rest)) = sorted.split_first() else {
        return true;
    };
    let mut last = *first;
    for entry in rest {
        if last.shares_position(entry) {
            return false;
        }
        last = *entry;
    }
    true
}
