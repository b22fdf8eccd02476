//! The entries of a store as tuples.
ghost use Rattle.std.specs.Prelude.{◌≡◌, ◌++◌, IfOk, OnOk, length, map};
ghost use Rattle.model.specs.Entries.{entries_of};
ghost use Rattle.session.specs.Listed.{tuple_of};
ghost use Rattle.store.specs.Fibers.{entries_along};
ghost use Rattle.store.specs.Stored.{content_of};

use algebra::Domain;
use model::NoMemory;
use std::alloc::{AllocError, Global};
use store::{Row, Sparse};

/// Row, column and value of each entry of a store, row by row.
pub(crate) fn listed(
    alloc: Global,
    domain: Domain,
    store: &Sparse,
) -> Result<Vec<(u64, u64, i128)>, NoMemory>
    ensures { IfOk result (λ tuples. tuples.items
        ≡ map (tuple_of domain) (entries_of store.now.rows store.now.cols (content_of store.now))) }
{
    let mut tuples = Vec::with_capacity(alloc, store.words().len())?;
    let mut rest = store.rows_in(0..store.rows());
    while let Some((row, others)) = rest.split_first() {
        append_row(&mut tuples, domain, row)?;
        rest = others;
    }
    Ok(tuples)
}

/// Appends row, column and value of each entry of a row.
fn append_row(
    tuples: &mut Vec<(u64, u64, i128)>,
    domain: Domain,
    row: Row<'_>,
) -> Result<(), AllocError>
    requires { length row.words.now ≡ length row.cols.now }
    ensures { OnOk result (tuples.new.items ≡ tuples.old.items
        ++ map (tuple_of domain) (entries_along row.entry.index row.entry.cols.now row.entry.words.now)) }
{
    for k in 0..row.cols.len() {
        tuples.push((row.index, row.cols[k], domain.value_of(row.words[k])))?;
    }
    Ok(())
}
