//! What lists of values at positions make, one position at a time.
ghost use Rattle.std.specs.Prelude.{◌≡◌, ◌==◌, ◌&&◌, None, Some, if◌then◌else◌, true};
ghost use Rattle.model.specs.Builds.{built, entry_of, gathered, joined};
ghost use Rattle.plain.specs.Evaluated.{accumulator_offered, added};

use crate::sums::added;
use algebra::{BinaryOp, Domain, OpName};
use model::{Entry, Tuple};

/// What the entries of a position make, from the first to the last.
pub fn gathered_at(dup: Option<OpName>, entries: &[Entry], row: u64, col: u64) -> Option<u64>
    requires { accumulator_offered dup ≡ true }
    ensures { result ≡ gathered dup entries.now row col }
{
    let mut made = None;
    for entry in entries {
        made = joined(dup, made, word_for(*entry, row, col));
    }
    made
}

/// What the tuples of a position make, from the first to the last.
pub fn built_at(
    dup: Option<OpName>,
    domain: Domain,
    tuples: &[Tuple],
    row: u64,
    col: u64,
) -> Option<u64>
    requires { accumulator_offered dup ≡ true }
    ensures { result ≡ built dup domain tuples.now row col }
{
    let mut made = None;
    for tuple in tuples {
        made = joined(dup, made, word_for(entry_of(domain, *tuple), row, col));
    }
    made
}

/// The entry of a tuple, its value in a domain.
const fn entry_of(domain: Domain, tuple: Tuple) -> Entry
    ensures { result ≡ entry_of domain tuple }
{
    Entry {
        row: tuple.place.row(),
        col: tuple.place.col(),
        word: domain.wrapped(tuple.value),
    }
}

/// The word of an entry, if it is for a position.
fn word_for(entry: Entry, row: u64, col: u64) -> Option<u64>
    ensures { result ≡ (if (row == entry.row) && (col == entry.col) then Some entry.word else None) }
{
    (row == entry.row && col == entry.col).then_some(entry.word)
}

/// What earlier values of a position make, and one more, where they are there.
fn joined(dup: Option<OpName>, made: Option<u64>, word: Option<u64>) -> Option<u64>
    requires { accumulator_offered dup ≡ true }
    ensures { result ≡ added (joined dup) made word }
{
    match dup {
        Some(op) => added(BinaryOp::of(op.kind, op.domain), made, word),
        None => word.or(made),
    }
}
