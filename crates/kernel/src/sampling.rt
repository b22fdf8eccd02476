//! Where products are cut: as some entries of the first factor tell how many products there are.
ghost use Rattle.std.specs.Prelude.{◌<◌, IfOk, IfSome};
ghost use Rattle.std.specs.List.{AllPairs};

use crate::cutting::piece_end;
use crate::job::{MOST_PIECES, PRODUCT_PIECES};
use model::NoMemory;
use std::alloc::Global;
use store::{Form, Sparse, Store};

/// How many entries are looked at, and up to twice as many: with more, pieces would hardly be more even.
const SAMPLE: usize = 1_024;

/// How many products each piece has at least: one takes as long as several entries of other operations.
const LEAST_PRODUCTS: u64 = 16_384;

/// Of how many entries one is looked at, at least, so that it takes no time beside their products.
const LEAST_STEP: usize = 64;

/// A row that has more than so many times the entries of an average one counts as if it had as many: else one that few
/// entries meet would stand for all if one of these is looked at.
const MOST_TIMES: u64 = 64;

/// About how many products some of the first entries make.
#[derive(Drop)]
struct Sample {
    // Of so many entries one was looked at.
    step: usize,
    // For each of these how many there are up to it.
    sums: Vec<u64>,
}

impl Sample {
    /// The entries of a first factor, each with a row of the second.
    fn of(alloc: Global, a: &Sparse, b: &Store) -> Result<Sample, NoMemory> {
        let columns = a.fibers_in(0..a.rows()).flat().inner;
        let step = (columns.len() / SAMPLE).max(LEAST_STEP);
        let usual = b.nvals() / b.rows().max(1);
        let most = usual.saturating_add(1).saturating_mul(MOST_TIMES);
        let mut sums = Vec::new(alloc);
        let mut sum = 0u64;
        // Parts are passed over at once, where `step_by` would go from entry to entry.
        for part in columns.chunks(step) {
            let [column, ..] = part else {
                continue;
            };
            // One column lies as one fiber, whose inner indices are rows.
            let row = if a.cols() == 1 { 0 } else { *column };
            // An entry itself takes time, too: its row is looked up.
            let products = entries_in_row(b, row).min(most).saturating_add(1);
            sum = sum.saturating_add(products.saturating_mul(step as u64));
            sums.push(sum)?;
        }
        Ok(Sample { step, sums })
    }

    /// Those that all entries make.
    fn total(&self) -> u64 {
        self.before(usize::MAX)
    }

    /// Those that so many of the first entries make.
    fn before(&self, entries: usize) -> u64 {
        let count = (entries / self.step.max(1)).min(self.sums.len());
        if count == 0 { 0 } else { self.sums[count - 1] }
    }

    /// How many of the first entries make so many.
    fn entries(&self, products: u64) -> usize {
        let count = self.sums.partition_point(|sum| *sum < products);
        count.saturating_mul(self.step)
    }
}

/// About how many entries a row of a store has.
fn entries_in_row(store: &Store, row: u64) -> u64 {
    match store.form() {
        Form::Sparse(lists) => lists.row(row).0.len() as u64,
        Form::Bitmap(_) | Form::Blocks(_) => store.nvals() / store.rows().max(1),
    }
}

/// The rows at which the product of two factors is cut, each piece but the last of at least so many rows. Each has half
/// of an even share of what is left, since its products may take longer than others: pieces get smaller and smaller, so
/// that all threads end at about one time.
pub(crate) fn cut_products(
    alloc: Global,
    a: &Sparse,
    b: &Store,
    least: u64,
    threads: u64,
) -> Result<Vec<u64>, NoMemory>
    ensures { IfOk result (λ rows. AllPairs (λ row later. row < later) rows.items) }
{
    let sample = Sample::of(alloc, a, b)?;
    let mut rows = Vec::new(alloc);
    let mut row = 0u64;
    for _ in 1..MOST_PIECES {
        let Some(next) = next_row(&sample, a, row, least, threads) else {
            break;
        };
        rows.push(next)?;
        row = next;
    }
    Ok(rows)
}

/// The row behind the piece from a row on, where another piece follows it.
fn next_row(sample: &Sample, a: &Sparse, row: u64, least: u64, threads: u64) -> Option<u64>
    ensures { IfSome result (λ next. row < next) }
{
    let threads = threads.max(1);
    let done = a.fibers_in(0..row).len();
    let before = sample.before(done);
    let left = sample.total().saturating_sub(before);
    let share = sample.total() / threads;
    let small = LEAST_PRODUCTS.max(share / PRODUCT_PIECES);
    let size = small.max(left / 2 / threads);
    if left < size.saturating_add(small) {
        return None;
    }
    let entries = sample.entries(before.saturating_add(size));
    let next = piece_end(a, row, least, entries.saturating_sub(done).max(1))?;

    // The last piece may have fewer rows than others, but not less work.
    let rest = sample
        .total()
        .saturating_sub(sample.before(a.fibers_in(0..next).len()));
    if rest < small {
        return None;
    }
    Some(next)
}
