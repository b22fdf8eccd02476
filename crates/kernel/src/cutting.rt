//! Where tasks are cut into pieces of rows.
ghost use Rattle.std.specs.Prelude.{◌<◌, IfOk, IfSome, IsTrue};
ghost use Rattle.std.specs.List.{AllPairs};

use crate::job::{Along, Job, MOST_PIECES};
use crate::sampling::cut_products;
use calls::{Recipe, Roles};
use model::NoMemory;
use std::alloc::Global;
use store::{Blocks, Sparse, Store};

/// How many entries say where columns are cut, and up to twice as many: with more, pieces would hardly be more even.
const SAMPLE: usize = 512;

/// Whether a recipe is worth more than one thread, of the stores that take its roles, and can be cut by rows. It takes
/// constant time.
pub fn is_cut(recipe: &Recipe, stores: &Roles<&Store>, threads: u64) -> bool {
    match Job::of(recipe, stores) {
        Some(job) => job.count_pieces(threads) > 1,
        None => false,
    }
}

/// The rows at which a recipe's rows are cut for threads that work apart, of the stores that take its roles: no row for
/// a task that isn't cut (`is_cut`). Each piece but the last has `least` rows or more, and about the same work; or,
/// along the rows of lists, less and less. Where memory for the rows is refused, the task isn't cut. Its time follows
/// the number of pieces and the logarithm of that of entries, of which it looks at some thousands at the most.
pub fn cuts(
    alloc: Global,
    recipe: &Recipe,
    stores: &Roles<&Store>,
    least: u64,
    threads: u64,
) -> Vec<u64>
    ensures { AllPairs (λ row later. row < later) result.items }
{
    let Some(job) = Job::of(recipe, stores) else {
        return Vec::new(alloc);
    };
    let pieces = job.count_pieces(threads);
    if pieces < 2 {
        return Vec::new(alloc);
    }
    let rows = match job.along {
        Along::Rows(by) => cut_rows(alloc, by, least, threads, by.nvals() / pieces),
        Along::Blocks(by) => cut_blocks(alloc, by, least),
        Along::Products(a, b) => cut_products(alloc, a, b, least, threads),
        Along::Columns(by) => cut_columns(alloc, by, least, pieces),
        Along::Evenly(rows) => cut_evenly(alloc, rows, least, pieces),
    };
    match rows {
        Ok(rows) => rows,
        Err(NoMemory) => Vec::new(alloc),
    }
}

/// The rows at which lists are cut into pieces of at least so many rows and about `small` entries. Each has half of an
/// even share of what is left, where that is more: a thread may have to wait for a processor, and all are to end at
/// about one time.
fn cut_rows(
    alloc: Global,
    by: &Sparse,
    least: u64,
    threads: u64,
    small: u64,
) -> Result<Vec<u64>, NoMemory>
    ensures { IfOk result (λ rows. AllPairs (λ row later. row < later) rows.items) }
{
    let mut rows = Vec::new(alloc);
    let mut row = 0u64;
    for _ in 1..MOST_PIECES {
        let Some(next) = next_cut(by, row, least, threads, small) else {
            break;
        };
        rows.push(next)?;
        row = next;
    }
    Ok(rows)
}

/// The rows at which blocks end, where pieces between these have at least so many rows.
fn cut_blocks(alloc: Global, by: &Blocks, least: u64) -> Result<Vec<u64>, NoMemory>
    ensures { IfOk result (λ rows. AllPairs (λ row later. row < later) rows.items) }
{
    let mut rows = Vec::new(alloc);
    let mut last = 0u64;
    for at in 0..by.parts().len() {
        if let Some(past) = by.past(at)
            && may_cut(by.rows(), last, past, least)
        {
            rows.push(past)?;
            last = past;
        }
    }
    Ok(rows)
}

/// The row behind the piece from a row on, where another piece follows it that has at least as many rows, too.
fn next_cut(by: &Sparse, row: u64, least: u64, threads: u64, small: u64) -> Option<u64>
    ensures { IfSome result (λ next. row < next) }
{
    let left = by.fibers_in(row..by.rows()).len() as u64;
    let entries = small.max(left / 2 / threads.max(1)).max(1);
    let next = piece_end(by, row, least, entries as usize)?;
    if by.rows() - next < least {
        return None;
    }
    Some(next)
}

/// The row behind the piece of about so many entries, and of at least so many rows, from a row on; None where no row
/// follows it.
pub(crate) fn piece_end(by: &Sparse, row: u64, least: u64, entries: usize) -> Option<u64>
    ensures start { IfSome result (λ end. row < end) }
    ensures end { IfSome result (λ end. end < by.now.rows) }
{
    let rows = by.rows();
    if row >= rows {
        return None;
    }
    let end = by
        .part_end(row..rows, entries)
        .max(row.saturating_add(least));
    if end >= rows {
        return None;
    }
    Some(end)
}

/// The columns at which lists are cut into so many parts of about as many entries, as far as some of these tell, and of
/// at least so many columns.
fn cut_columns(alloc: Global, by: &Store, least: u64, pieces: u64) -> Result<Vec<u64>, NoMemory>
    ensures { IfOk result (λ columns. AllPairs (λ column later. column < later) columns.items) }
{
    let some = some_columns(alloc, by)?;
    let count = some.len() as u64;
    let mut columns = Vec::new(alloc);
    let mut last = 0u64;
    for piece in 1..pieces {
        let place = count.saturating_mul(piece) / pieces;
        if let Some(column) = some.get(place as usize)
            && may_cut(by.cols(), last, *column, least)
        {
            columns.push(*column)?;
            last = *column;
        }
    }
    Ok(columns)
}

/// Some of so many rows, at which they are cut into so many parts of about as many, and of at least so many but for the
/// last.
fn cut_evenly(alloc: Global, rows: u64, least: u64, pieces: u64) -> Result<Vec<u64>, NoMemory>
    ensures { IfOk result (λ cuts. AllPairs (λ row later. row < later) cuts.items) }
{
    let part = rows.div_ceil(pieces.max(1)).max(least);
    let mut cuts = Vec::new(alloc);
    let mut last = 0u64;
    for piece in 1..pieces {
        let row = part.saturating_mul(piece);
        if last < row && row < rows {
            cuts.push(row)?;
            last = row;
        }
    }
    Ok(cuts)
}

/// Whether a row or column stands far enough behind the last one at which so many were cut, and before their end.
fn may_cut(count: u64, last: u64, next: u64, least: u64) -> bool
    ensures { IsTrue result → last < next }
{
    last < next && next - last >= least && next < count && count - next >= least
}

/// The columns of some entries of lists, in order.
fn some_columns(alloc: Global, by: &Store) -> Result<Vec<u64>, NoMemory> {
    let mut some = Vec::new(alloc);
    if let Some(parts) = by.parts() {
        let step = parts.nvals() as usize / SAMPLE + 1;
        for part in parts.stores() {
            push_some(&mut some, part, step)?;
        }
    }
    some.sort_unstable();
    Ok(some)
}

/// Adds the columns of some entries of lists, one of so many.
fn push_some(some: &mut Vec<u64>, lists: &Sparse, step: usize) -> Result<(), NoMemory>
    requires { 0 < step }
{
    let all = lists.fibers_in(0..lists.rows()).flat().inner;
    for part in all.chunks(step) {
        if let [column, ..] = part {
            some.push(*column)?;
        }
    }
    Ok(())
}
