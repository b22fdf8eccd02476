//! The sums of a row of a product of which a bitmap as a mask keeps few columns: each product asks for its column
//! before it is added.
ghost use Rattle.std.specs.Prelude.{◌≡◌, ◌<◌, ◌≤◌, ◌*◌, ◌++◌, ◌∷◌, ◌^◌, [], List, OnOk, length};
ghost use Rattle.std.specs.List.{All};
ghost use Rattle.lanes.specs.Bits.{has_bit};
ghost use Rattle.store.specs.Fibers.{entries_along};
ghost use Rattle.spgemm.specs.Dense.{AreClear, AreColumnSums, HaveRoom};
ghost use Rattle.spgemm.specs.Products.{HasOpenRow};
ghost use Rattle.terms.specs.Terms.{apply, kept_terms, term_at, terms_of_row, times_row};
ghost use Rattle.terms.specs.declared.term.Term.{Term};

use crate::dense::{add_at, gather};
use algebra::{Semiring, with_semiring};
use lanes::{count_ones, has_bit};
use masks::MarkedMask;
use model::NoMemory;
use store::{FiberLists, Row, RowHints, Sparse};
use terms::{AHEAD, look_ahead, pays_ahead};

/// Where a mask keeps at most one of so many columns, a processor foresees that it keeps a product out, and to ask it
/// takes less than to add what is dropped later. Where it keeps more, what can't be foreseen costs more than the sums.
const COLUMNS_A_KEPT: u64 = 32;

/// Whether so few of so many columns are kept that it pays to ask first.
pub(crate) fn keeps_few(kept: &[u64], cols: u64) -> bool
    requires { 64 * length kept.now < 2 ^ 64 }
{
    count_ones(kept) <= cols / COLUMNS_A_KEPT
}

/// Adds a word times another to the sum at a column, where that is kept.
#[inline(always)]
fn add_if_kept(
    bits: &mut [u64],
    sums: &mut [u64],
    kept: &[u64],
    col: usize,
    word: u64,
    other: u64,
    semiring: Semiring,
)
    requires room { HaveRoom bits.old sums.old }
    requires kept { length kept.now ≡ length bits.old }
    requires inside { col < length sums.old }
    ensures { (terms : List Term) → AreColumnSums semiring.add.op terms bits.old sums.old
        → AreColumnSums semiring.add.op
        (terms ++ kept_terms (has_bit kept.now) (term_at col (apply semiring.multiply word other) ∷ []))
        bits.new sums.new }
{
    if has_bit(kept, col) {
        let product = semiring.multiply.eval(word, other);
        add_at(bits, sums, col, product, semiring.add.op, None);
    }
}

/// Adds a word times each entry of a row to the sum at its column, where that is kept.
#[inline(always)]
fn add_products(
    bits: &mut [u64],
    sums: &mut [u64],
    kept: &[u64],
    word: u64,
    cols: &[u64],
    words: &[u64],
    semiring: Semiring,
)
    requires room { HaveRoom bits.old sums.old }
    requires kept { length kept.now ≡ length bits.old }
    requires lengths { length words.now ≡ length cols.now }
    requires inside { All (λ col. col < length sums.old) cols.now }
    ensures { (terms : List Term) → AreColumnSums semiring.add.op terms bits.old sums.old
        → AreColumnSums semiring.add.op (terms ++ kept_terms (has_bit kept.now)
        (times_row semiring.multiply word (entries_along 0 cols.now words.now))) bits.new sums.new }
{
    for k in 0..cols.len() {
        add_if_kept(bits, sums, kept, cols[k] as usize, word, words[k], semiring);
    }
}

/// Adds the products of a row of A with B at the columns that are kept, each entry times the row of B that its column
/// names. No bit is set yet. It answers about how many products there are, or 0 where it didn't look ahead.
#[tactic(auto, using(crate::proofs::Arms::same_kept_sums))]
fn add_rows(
    bits: &mut [u64],
    sums: &mut [u64],
    kept: &[u64],
    row: Row<'_>,
    b: &Sparse,
    hints: &RowHints,
    semiring: Semiring,
) -> usize
    requires room { HaveRoom bits.old sums.old }
    requires kept { length kept.now ≡ length bits.old }
    requires lengths { length row.words.now ≡ length row.cols.now }
    requires inside { b.now.cols ≤ length sums.old }
    requires none { AreClear bits.old }
    ensures { AreColumnSums semiring.add.op (kept_terms (has_bit kept.now) (terms_of_row semiring.multiply
        (entries_along row.entry.index row.entry.cols.now row.entry.words.now) b.now)) bits.new sums.new }
{
    // All that runs below the arms is inlined, so that its loops are compiled for each.
    with_semiring!(
        semiring,
        |own| add_rows_by(bits, sums, kept, row, b, hints, own)
    )
}

/// What `add_rows` does, by one semiring of its arms.
#[inline(always)]
fn add_rows_by(
    bits: &mut [u64],
    sums: &mut [u64],
    kept: &[u64],
    row: Row<'_>,
    b: &Sparse,
    hints: &RowHints,
    semiring: Semiring,
) -> usize
    requires room { HaveRoom bits.old sums.old }
    requires kept { length kept.now ≡ length bits.old }
    requires lengths { length row.words.now ≡ length row.cols.now }
    requires inside { b.now.cols ≤ length sums.old }
    requires none { AreClear bits.old }
    ensures { AreColumnSums semiring.add.op (kept_terms (has_bit kept.now) (terms_of_row semiring.multiply
        (entries_along row.entry.index row.entry.cols.now row.entry.words.now) b.now)) bits.new sums.new }
{
    let is_ahead = pays_ahead(row.cols.len(), b);
    let mut last = 0;
    let mut count: usize = 0;
    for k in 0..row.cols.len() {
        if is_ahead && k % AHEAD == 0 {
            count = count.saturating_add(look_ahead(row.cols, k, b, hints, last));
        }
        let (cols, words, next) = b.row_near(row.cols[k], hints.of(row.cols[k], last));
        last = next;
        add_products(bits, sums, kept, row.words[k], cols, words, semiring);
    }
    count
}

/// Puts the sums of the row of the product with B that a row of A gives, at the columns that are kept, behind the inner
/// indices and words. It sums in a place for each column.
pub(crate) fn sum_few(
    lists: &mut FiberLists,
    bits: &mut [u64],
    sums: &mut [u64],
    kept: &[u64],
    row: Row<'_>,
    b: &Sparse,
    hints: &RowHints,
    semiring: Semiring,
) -> Result<(), NoMemory>
    requires room { HaveRoom bits.old sums.old }
    requires kept { length kept.now ≡ length bits.old }
    requires lengths { length row.words.now ≡ length row.cols.now }
    requires inside { b.now.cols ≤ length sums.old }
    requires none { AreClear bits.old }
    ensures { OnOk result (HasOpenRow semiring.add.op row.entry.index
        (kept_terms (has_bit kept.now) (terms_of_row semiring.multiply
        (entries_along row.entry.index row.entry.cols.now row.entry.words.now) b.now))
        lists.old lists.new) }
{
    let products = add_rows(bits, sums, kept, row, b, hints, semiring);
    let most = products.min(count_ones(kept) as usize);
    lists.inner.reserve(most)?;
    lists.words.reserve(most)?;
    let count = bits.len();
    gather(lists, bits, sums, &(0..count))
}
