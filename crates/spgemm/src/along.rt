//! The products of a row without gaps, on a walk along the rows of the other factor.
ghost use Rattle.std.specs.Prelude.{◌≡◌, ◌<◌, ◌≤◌, ◌+◌, ◌^◌, [], length, slice_index, true};
ghost use Rattle.std.specs.List.{AllPairs};
ghost use Rattle.store.specs.Fibers.{entries_along};
ghost use Rattle.spgemm.specs.Dense.{AreMarkedSums};
ghost use Rattle.terms.specs.Terms.{AreConsecutive, terms_of_row};

use crate::many::add_row_of_b;
use algebra::{Semiring, with_semiring};
use store::{Row, Sparse};

/// Whether columns that rise have no gaps, where there are some and a column may come behind them.
pub(crate) fn are_consecutive(cols: &[u64]) -> bool
    requires rising { AllPairs (λ p q. p < q) cols.now }
    ensures some { result ≡ true → 0 < length cols.now }
    ensures steps { result ≡ true → AreConsecutive cols.now }
    ensures past { result ≡ true → slice_index cols.now 0 + length cols.now < 2 ^ 64 }
{
    if cols.is_empty() {
        return false;
    }
    let (first, last) = (cols[0], cols[cols.len() - 1]);
    if last == u64::MAX {
        return false;
    }
    last - first == cols.len() as u64 - 1
}

/// Adds the products of a row of A without gaps with B, where no column is marked yet. It goes along the rows of
/// B that have entries, and looks none up.
#[tactic(auto, using(crate::proofs::Arms::same_marked_sums))]
pub(crate) fn add_along(
    marks: &mut [bool],
    sums: &mut [u64],
    row: Row<'_>,
    b: &Sparse,
    semiring: Semiring,
)
    requires marks { length marks.old ≡ length sums.old }
    requires lengths { length row.words.now ≡ length row.cols.now }
    requires some { 0 < length row.cols.now }
    requires steps { AreConsecutive row.cols.now }
    requires past { slice_index row.cols.now 0 + length row.cols.now < 2 ^ 64 }
    requires inside { b.now.cols ≤ length sums.old }
    requires before { AreMarkedSums semiring.add [] marks.old sums.old }
    ensures { AreMarkedSums semiring.add
        (terms_of_row semiring.multiply (entries_along row.entry.index row.entry.cols.now row.entry.words.now) b.now)
        marks.new sums.new }
{
    // All that runs below the arms is inlined, so that its loops are compiled for each.
    with_semiring!(semiring, |own| add_along_by(marks, sums, row, b, own))
}

/// What `add_along` does, by one semiring of its arms.
#[inline(always)]
fn add_along_by(marks: &mut [bool], sums: &mut [u64], row: Row<'_>, b: &Sparse, semiring: Semiring)
    requires marks { length marks.old ≡ length sums.old }
    requires lengths { length row.words.now ≡ length row.cols.now }
    requires some { 0 < length row.cols.now }
    requires steps { AreConsecutive row.cols.now }
    requires past { slice_index row.cols.now 0 + length row.cols.now < 2 ^ 64 }
    requires inside { b.now.cols ≤ length sums.old }
    requires before { AreMarkedSums semiring.add [] marks.old sums.old }
    ensures { AreMarkedSums semiring.add
        (terms_of_row semiring.multiply (entries_along row.entry.index row.entry.cols.now row.entry.words.now) b.now)
        marks.new sums.new }
{
    let width = b.cols() as usize;
    let mut known = 0;
    let first = row.cols[0];
    let mut rest = b.rows_in(first..first + row.cols.len() as u64);
    while let Some((line, others)) = rest.split_first() {
        let at = (line.index - first) as usize;
        known = add_row_of_b(
            marks,
            sums,
            row.words[at],
            line.cols,
            line.words,
            semiring,
            width,
            known,
        );
        rest = others;
    }
}
