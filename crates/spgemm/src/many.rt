//! The sums of a row of a product that has more products than there are columns.
ghost use Rattle.std.specs.Prelude.{◌≡◌, ℕ, ◌<◌, ◌≤◌, ◌*◌, ◌++◌, [], Bool, List, OnOk};
ghost use Rattle.std.specs.Prelude.{false, length, slice_index_or, true};
ghost use Rattle.std.specs.List.{All, AllPairs};
ghost use Rattle.store.specs.Fibers.{entries_along};
ghost use Rattle.lanes.specs.Bits.{has_bit};
ghost use Rattle.spgemm.specs.Dense.{AreColumnSums, AreMarkedSums, HaveRoom};
ghost use Rattle.terms.specs.Terms.{terms_of_row, times_row};
ghost use Rattle.terms.specs.declared.term.Term.{Term};

use crate::along::{add_along, are_consecutive};
use algebra::{Semiring, with_semiring};
use lanes::packed;
use model::NoMemory;
use store::{Row, RowHints, Sparse};

/// Whether so many entries of a row of A have more products with B than there are columns, if the rows of B that
/// they meet are as long as its rows are on average. The average isn't rounded, or 1.9 entries a row would count
/// as one.
pub(crate) fn exceeds_columns(entries: usize, b: &Sparse) -> bool {
    (entries as u64).saturating_mul(b.nvals()) / b.rows().max(1) > b.cols()
}

/// Adds a word times each entry of a row to the sum at its column, and marks the column.
#[inline(always)]
fn add_products(
    marks: &mut [bool],
    sums: &mut [u64],
    word: u64,
    cols: &[u64],
    words: &[u64],
    semiring: Semiring,
)
    requires marks { length marks.old ≡ length sums.old }
    requires lengths { length words.now ≡ length cols.now }
    requires inside { All (λ col. col < length sums.old) cols.now }
    ensures sums { (terms : List Term) → AreMarkedSums semiring.add terms marks.old sums.old
        → AreMarkedSums semiring.add
        (terms ++ times_row semiring.multiply word (entries_along 0 cols.now words.now)) marks.new sums.new }
    ensures stay { (at : ℕ) → slice_index_or marks.old at false ≡ true → slice_index_or marks.new at false ≡ true }
{
    for k in 0..cols.len() {
        let col = cols[k] as usize;
        let product = semiring.multiply.eval(word, words[k]);
        sums[col] = semiring.add.op.eval(sums[col], product);
        marks[col] = true;
    }
}

/// Adds a word times each entry of a row to the sum at its column, where all these columns are marked. It is handed
/// no marks, so it neither reads nor writes any.
#[inline(always)]
fn add_known_products(sums: &mut [u64], word: u64, cols: &[u64], words: &[u64], semiring: Semiring)
    requires lengths { length words.now ≡ length cols.now }
    requires inside { All (λ col. col < length sums.old) cols.now }
    ensures { (marks : List Bool) → length marks ≡ length sums.old
        → All (λ col. slice_index_or marks col false ≡ true) cols.now
        → (terms : List Term) → AreMarkedSums semiring.add terms marks sums.old
        → AreMarkedSums semiring.add
        (terms ++ times_row semiring.multiply word (entries_along 0 cols.now words.now)) marks sums.new }
{
    for k in 0..cols.len() {
        let col = cols[k] as usize;
        let product = semiring.multiply.eval(word, words[k]);
        sums[col] = semiring.add.op.eval(sums[col], product);
    }
}

/// How many places from the first on are all marked: at least those that are known to be, at most those before `past`.
#[inline(always)]
fn marked_from(marks: &[bool], known: usize, past: usize) -> usize
    requires past { past ≤ length marks.now }
    requires bound { known ≤ past }
    requires known { (at : ℕ) → at < known → slice_index_or marks.now at false ≡ true }
    ensures least { known ≤ result }
    ensures bound { result ≤ past }
    ensures marked { (at : ℕ) → at < result → slice_index_or marks.now at false ≡ true }
{
    let mut count = known;
    while count < past && marks[count] {
        count += 1;
    }
    count
}

/// Adds a word times each entry of a row of B, which has so many columns, to the sum at its column, and marks the
/// column. It answers how many columns from the first on are marked then, where so many were known to be before:
/// once all are, the marks are left alone.
#[inline(always)]
pub(crate) fn add_row_of_b(
    marks: &mut [bool],
    sums: &mut [u64],
    word: u64,
    cols: &[u64],
    words: &[u64],
    semiring: Semiring,
    width: usize,
    known: usize,
) -> usize
    requires marks { length marks.old ≡ length sums.old }
    requires width { width ≤ length sums.old }
    requires lengths { length words.now ≡ length cols.now }
    requires inside { All (λ col. col < width) cols.now }
    requires bound { known ≤ width }
    requires known { (at : ℕ) → at < known → slice_index_or marks.old at false ≡ true }
    ensures sums { (terms : List Term) → AreMarkedSums semiring.add terms marks.old sums.old
        → AreMarkedSums semiring.add
        (terms ++ times_row semiring.multiply word (entries_along 0 cols.now words.now)) marks.new sums.new }
    ensures bound { result ≤ width }
    ensures known { (at : ℕ) → at < result → slice_index_or marks.new at false ≡ true }
{
    if known < width {
        add_products(marks, sums, word, cols, words, semiring);
        marked_from(marks, known, width)
    } else {
        add_known_products(sums, word, cols, words, semiring);
        known
    }
}

/// Adds the products of a row of A with B, each entry times the row of B that its column names, where no column
/// is marked yet.
#[tactic(auto, using(crate::proofs::Arms::same_marked_sums))]
fn add_rows(
    marks: &mut [bool],
    sums: &mut [u64],
    row: Row<'_>,
    b: &Sparse,
    hints: &RowHints,
    semiring: Semiring,
)
    requires marks { length marks.old ≡ length sums.old }
    requires lengths { length row.words.now ≡ length row.cols.now }
    requires inside { b.now.cols ≤ length sums.old }
    requires before { AreMarkedSums semiring.add [] marks.old sums.old }
    ensures { AreMarkedSums semiring.add
        (terms_of_row semiring.multiply (entries_along row.entry.index row.entry.cols.now row.entry.words.now) b.now)
        marks.new sums.new }
{
    // All that runs below the arms is inlined, so that its loops are compiled for each.
    with_semiring!(semiring, |own| add_rows_by(marks, sums, row, b, hints, own))
}

/// What `add_rows` does, by one semiring of its arms.
#[inline(always)]
fn add_rows_by(
    marks: &mut [bool],
    sums: &mut [u64],
    row: Row<'_>,
    b: &Sparse,
    hints: &RowHints,
    semiring: Semiring,
)
    requires marks { length marks.old ≡ length sums.old }
    requires lengths { length row.words.now ≡ length row.cols.now }
    requires inside { b.now.cols ≤ length sums.old }
    requires before { AreMarkedSums semiring.add [] marks.old sums.old }
    ensures { AreMarkedSums semiring.add
        (terms_of_row semiring.multiply (entries_along row.entry.index row.entry.cols.now row.entry.words.now) b.now)
        marks.new sums.new }
{
    let width = b.cols() as usize;
    let mut known = 0;
    let mut last = 0;
    for k in 0..row.cols.len() {
        let (cols, words, next) = b.row_near(row.cols[k], hints.of(row.cols[k], last));
        last = next;
        known = add_row_of_b(
            marks,
            sums,
            row.words[k],
            cols,
            words,
            semiring,
            width,
            known,
        );
    }
}

/// Adds the products of a row of A with B, where no column is marked yet: where the row has no gaps, on a walk
/// along B.
fn add_row(
    marks: &mut [bool],
    sums: &mut [u64],
    row: Row<'_>,
    b: &Sparse,
    hints: &RowHints,
    semiring: Semiring,
)
    requires marks { length marks.old ≡ length sums.old }
    requires lengths { length row.words.now ≡ length row.cols.now }
    requires rising { AllPairs (λ p q. p < q) row.cols.now }
    requires inside { b.now.cols ≤ length sums.old }
    requires before { AreMarkedSums semiring.add [] marks.old sums.old }
    ensures { AreMarkedSums semiring.add
        (terms_of_row semiring.multiply (entries_along row.entry.index row.entry.cols.now row.entry.words.now) b.now)
        marks.new sums.new }
{
    if are_consecutive(row.cols) {
        add_along(marks, sums, row, b, semiring);
    } else {
        add_rows(marks, sums, row, b, hints, semiring);
    }
}

/// Makes the sums those of the row of the product with B that a row of A gives. They begin at the monoid's identity,
/// so that none is asked whether it is the first at its column.
pub(crate) fn sum_many(
    bits: &mut [u64],
    sums: &mut [u64],
    marks: &mut Vec<bool>,
    row: Row<'_>,
    b: &Sparse,
    hints: &RowHints,
    semiring: Semiring,
) -> Result<(), NoMemory>
    requires room { HaveRoom bits.old sums.old }
    requires lengths { length row.words.now ≡ length row.cols.now }
    requires rising { AllPairs (λ p q. p < q) row.cols.now }
    requires inside { b.now.cols ≤ length sums.old }
    ensures { OnOk result (AreColumnSums semiring.add.op
        (terms_of_row semiring.multiply (entries_along row.entry.index row.entry.cols.now row.entry.words.now) b.now)
        bits.new sums.new) }
{
    marks.clear();
    marks.resize(sums.len(), false)?;
    sums.fill(semiring.add.identity());
    add_row(marks, sums, row, b, hints, semiring);
    set_marked(bits, marks);
    Ok(())
}

/// Sets the bits of the places that are marked, and no others.
pub(crate) fn set_marked(bits: &mut [u64], marks: &[bool])
    requires { length marks.now ≡ 64 * length bits.old }
    ensures length { length bits.new ≡ length bits.old }
    ensures bits { (at : ℕ) → at < length marks.now → has_bit bits.new at ≡ slice_index_or marks.now at false }
{
    for at in 0..bits.len() {
        bits[at] = packed(&marks[64 * at..64 * at + 64]);
    }
}
