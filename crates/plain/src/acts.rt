//! What is done to one object: which tests it fails, what it leaves and what it answers.
ghost use Rattle.std.specs.Prelude.{◌≡◌, ◌==◌, ◌&&◌, IfOk, true};
ghost use Rattle.model.specs.Fault.{act_fails, has_entries, late_fault};
ghost use Rattle.model.specs.Object.{col_of, row_of};
ghost use Rattle.model.specs.Run.{lines_of as lines_asked};
ghost use Rattle.plain.specs.Acts.{are_act_operators, content_left, known_left};
ghost use Rattle.plain.specs.Evaluated.{input_of, lines_of};

use crate::builds::built_at;
use crate::grid::entries;
use crate::inputs::Input;
use crate::sums::sum_of_all;
use crate::text::{canonical_lines, count_text, one_line, value_text};
use algebra::{Monoid, MonoidName, OpName, compatible};
use model::{Act, Place, Signature, Status, TupleList, accumulator_serves};
use std::alloc::{AllocError, Global};

/// Whether an act fails a test on an object of which this is known.
pub fn act_fails(o: Signature, act: &Act, status: Status) -> bool
    ensures { result ≡ act_fails o act.now status }
{
    match (act, status) {
        (Act::Resize(shape), Status::WrongKind) => !shape.is_like(o.shape),
        (Act::Resize(shape), Status::InvalidValue) => !shape.is_allowed(),
        (Act::Build { dup, tuples }, _) => build_fails(o, *dup, tuples, status),
        (Act::Set { place, .. } | Act::Remove(place) | Act::Get(place), Status::WrongKind) => {
            !place.is_of_kind(o.shape)
        }
        (Act::Set { place, .. } | Act::Remove(place) | Act::Get(place), Status::InvalidIndex) => {
            !place.is_inside(o.shape)
        }
        (Act::Set { value, .. }, Status::InvalidValue) => o.domain.word_of(*value).is_none(),
        (Act::Reduce(monoid), _) => reduce_fails(o, *monoid, status),
        _ => false,
    }
}

/// Whether putting values into an object fails a test.
fn build_fails(o: Signature, dup: Option<OpName>, tuples: &TupleList, status: Status) -> bool
    ensures { result ≡ act_fails o (Act.Build dup tuples.now) status }
{
    match status {
        Status::WrongKind => !tuples.are_of_kind(o.shape),
        Status::NotImplemented => !accumulator_serves(o.domain, dup),
        Status::IndexOutOfBounds => !tuples.are_inside(o.shape),
        Status::InvalidValue => {
            !tuples.are_values_of(o.domain) || (dup.is_none() && !tuples.are_single())
        }
        _ => false,
    }
}

/// Whether asking for the sum of all values fails a test.
fn reduce_fails(o: Signature, monoid: MonoidName, status: Status) -> bool
    ensures { result ≡ act_fails o (Act.Reduce monoid) status }
{
    match status {
        Status::NotImplemented => !monoid.is_offered(),
        Status::DomainMismatch => !compatible(o.domain, monoid.domain),
        _ => false,
    }
}

/// The fault of an act that depends on its object's values.
pub fn late_fault(alloc: Global, act: &Act, o: Input<'_>) -> Result<Option<Status>, AllocError>
    ensures { IfOk result (λ fault. fault ≡ late_fault (input_of o.entry) act.now) }
{
    match act {
        Act::Get(place) if word_at(o, *place).is_none() => Ok(Some(Status::NoValue)),
        Act::Build { .. } if has_entries(alloc, o)? => Ok(Some(Status::OutputNotEmpty)),
        _ => Ok(None),
    }
}

/// The word at a place.
fn word_at(o: Input<'_>, place: Place) -> Option<u64>
    ensures { result ≡ (input_of o.entry).content (row_of place) (col_of place) }
{
    o.word(place.row(), place.col())
}

/// Whether an object has an entry.
fn has_entries(alloc: Global, object: Input<'_>) -> Result<bool, AllocError>
    ensures { IfOk result (λ has. has ≡ has_entries (input_of object.entry)) }
{
    let entries = entries(alloc, &object, object.shape())?;
    Ok(!entries.is_empty())
}

/// What is known of an object that an act changes, as it is then.
pub fn known_left(act: &Act, o: Signature) -> Option<Signature>
    ensures { result ≡ known_left act.now o }
{
    match act {
        Act::Resize(shape) => Some(Signature {
            domain: o.domain,
            shape: *shape,
        }),
        Act::Clear | Act::Build { .. } | Act::Set { .. } | Act::Remove(_) => Some(o),
        Act::Free | Act::Get(_) | Act::Nvals | Act::Print | Act::Reduce(_) | Act::Wait(_) => None,
    }
}

/// The word at a position of an object that an act changes, before another shape cuts it.
pub fn word_left(act: &Act, o: Input<'_>, row: u64, col: u64) -> Option<u64>
    requires { are_act_operators act.now ≡ true }
    ensures { result ≡ content_left act.now (input_of o.entry) row col }
{
    match act {
        Act::Resize(_) => o.word(row, col),
        Act::Build { dup, tuples } => built_at(*dup, o.domain, tuples.as_slice(), row, col),
        Act::Set { place, value } if is_at(*place, row, col) => Some(o.domain.wrapped(*value)),
        Act::Remove(place) if is_at(*place, row, col) => None,
        Act::Set { .. } | Act::Remove(_) => o.word(row, col),
        _ => None,
    }
}

/// Whether a place is a position.
const fn is_at(place: Place, row: u64, col: u64) -> bool
    ensures { result ≡ ((row == row_of place) && (col == col_of place)) }
{
    row == place.row() && col == place.col()
}

/// The data lines of an accepted act.
pub fn act_lines(alloc: Global, act: &Act, o: Input<'_>) -> Result<Vec<Vec<u8>>, AllocError>
    requires { are_act_operators act.now ≡ true }
    ensures { IfOk result (λ lines. lines_of lines ≡ lines_asked act.now (input_of o.entry)) }
{
    match act {
        Act::Get(place) => match word_at(o, *place) {
            Some(word) => one_line(alloc, value_text(alloc, o.domain, word)?),
            None => Ok(Vec::new(alloc)),
        },
        Act::Nvals => one_line(alloc, count_text(alloc, o)?),
        Act::Print => canonical_lines(alloc, o),
        Act::Reduce(monoid) => {
            let monoid = Monoid::of(monoid.kind, monoid.domain);
            let sum = sum_of_all(alloc, monoid, o)?;
            one_line(alloc, value_text(alloc, monoid.op.domain, sum)?)
        }
        _ => Ok(Vec::new(alloc)),
    }
}
