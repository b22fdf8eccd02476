//! Sums, one value after the other.
ghost use Rattle.std.specs.Prelude.{◌≡◌, IfOk, true};
ghost use Rattle.algebra.specs.Monoids.{sum_of};
ghost use Rattle.algebra.specs.OperatorNames.{monoid_named};
ghost use Rattle.algebra.specs.Operators.{combines_by, eval_of, offers};
ghost use Rattle.model.specs.Object.{cols_of, in_domain};
ghost use Rattle.model.specs.Reductions.{row_sums, row_words, sum_in};
ghost use Rattle.plain.specs.Evaluated.{added, input_of};

use crate::grid::{Mapping, entries};
use crate::inputs::{InDomain, Input};
use algebra::{BinaryOp, Monoid, MonoidName};
use std::alloc::{AllocError, Global};

/// A sum and one more term, where they are there.
pub const fn added(op: BinaryOp, sum: Option<u64>, term: Option<u64>) -> Option<u64>
    ensures { result ≡ added (eval_of op.kind op.domain) sum term }
{
    match (sum, term) {
        (None, _) => term,
        (Some(_), None) => sum,
        (Some(sum), Some(term)) => Some(op.eval(sum, term)),
    }
}

/// The sum of what a map has in the first columns of a row.
pub fn row_sum<M: Mapping>(monoid: Monoid, mapping: &M, row: u64, cols: u64) -> Option<u64>
    ensures { result ≡ sum_of monoid.kind monoid.op.domain (row_words cols (M.content mapping.now) row) }
{
    let mut sum = None;
    for col in 0..cols {
        sum = added(monoid.op, sum, mapping.at(row, col));
    }
    sum
}

/// The sum of the row of a position, in the one column that sums have.
pub fn summed(name: MonoidName, a: Input, row: u64, col: u64) -> Option<u64>
    requires { offers (combines_by name.kind) name.domain ≡ true }
    ensures { let a = input_of a.entry in
        result ≡ row_sums name (cols_of a.shape) (in_domain name.domain a) row col }
{
    if col != 0 {
        return None;
    }
    let values = InDomain {
        object: a,
        domain: name.domain,
    };
    let monoid = Monoid::of(name.kind, name.domain);
    row_sum(monoid, &values, row, a.shape().cols())
}

/// The sum of all values of an object; of none the identity.
pub fn sum_of_all(alloc: Global, monoid: Monoid, object: Input) -> Result<u64, AllocError>
    ensures { IfOk result (λ sum. sum ≡ sum_in (monoid_named monoid) (input_of object.entry)) }
{
    let domain = monoid.op.domain;
    let entries = entries(alloc, &InDomain { object, domain }, object.shape())?;
    let mut sum = None;
    for entry in &entries {
        sum = added(monoid.op, sum, Some(entry.word));
    }
    Ok(sum.unwrap_or(monoid.identity()))
}
