//! The sums of a row of a product over LOR, as bits that say which of them are true.
ghost use Rattle.std.specs.Prelude.{◌≡◌, ◌≢◌, ℕ, ◌<◌, ◌≤◌, ◌*◌, ◌++◌, ◌∷◌, [], List, OnOk};
ghost use Rattle.std.specs.Prelude.{false, length, slice_index, true};
ghost use Rattle.std.specs.List.{All};
ghost use Rattle.algebra.specs.declared.kinds.MonoidKind.TheVariants.{Lor};
ghost use Rattle.lanes.specs.Bits.{has_bit};
ghost use Rattle.store.specs.Fibers.{entries_along};
ghost use Rattle.spgemm.specs.Dense.{AreClear, AreColumnSums, HaveRoom};
ghost use Rattle.terms.specs.Terms.{apply, term_at, terms_of_row, times_row};
ghost use Rattle.spgemm.specs.Truths.{AreTruths, truth};
ghost use Rattle.terms.specs.declared.term.Term.{Term};

use algebra::{BinaryOp, MonoidKind, Semiring, with_semirings};
use lanes::{has_bit, set_bit, set_bit_by};
use model::NoMemory;
use store::{Row, RowHints, Sparse};

/// Whether sums are true or false, and true where a product is: a bit for each lies in a cache where words for all
/// columns don't.
pub(crate) fn are_truths(semiring: Semiring) -> bool
    ensures yes { result ≡ true → semiring.add.kind ≡ Lor }
    ensures no { result ≡ false → semiring.add.kind ≢ Lor }
{
    semiring.add.kind == MonoidKind::Lor
}

/// Adds a word times another to the sum at a column, without a branch.
#[inline(always)]
fn add_product(
    bits: &mut [u64],
    trues: &mut [u64],
    col: usize,
    word: u64,
    other: u64,
    semiring: Semiring,
)
    requires lor { semiring.add.kind ≡ Lor }
    requires trues { length trues.old ≡ length bits.old }
    requires inside { col < 64 * length bits.old }
    ensures { (terms : List Term) → AreTruths semiring.add.op terms bits.old trues.old
        → AreTruths semiring.add.op (terms ++ term_at col (apply semiring.multiply word other) ∷ [])
        bits.new trues.new }
{
    let product = semiring.multiply.eval(word, other);
    set_bit(bits, col);
    set_bit_by(trues, col, product);
}

/// Adds a word times each entry of a row to the sum at its column.
#[inline(always)]
pub(crate) fn add_products(
    bits: &mut [u64],
    trues: &mut [u64],
    word: u64,
    cols: &[u64],
    words: &[u64],
    semiring: Semiring,
)
    requires lor { semiring.add.kind ≡ Lor }
    requires trues { length trues.old ≡ length bits.old }
    requires lengths { length words.now ≡ length cols.now }
    requires inside { All (λ col. col < 64 * length bits.old) cols.now }
    ensures { (terms : List Term) → AreTruths semiring.add.op terms bits.old trues.old
        → AreTruths semiring.add.op
        (terms ++ times_row semiring.multiply word (entries_along 0 cols.now words.now)) bits.new trues.new }
{
    for k in 0..cols.len() {
        add_product(bits, trues, cols[k] as usize, word, words[k], semiring);
    }
}

/// Whether a word times each of some others is true.
#[inline(always)]
fn are_true(word: u64, others: &[u64], multiply: BinaryOp) -> bool
    ensures { result ≡ true → (k : ℕ) → k < length others.now → apply multiply word (slice_index others.now k) ≢ 0 }
{
    for k in 0..others.len() {
        if multiply.eval(word, others[k]) == 0 {
            return false;
        }
    }
    true
}

/// Adds a word times each entry of a row to the sum at its column, where all these products are true, and says whether
/// they are. As long as all products are, the same bits say where a sum is and which are true.
#[inline(always)]
pub(crate) fn add_true_products(
    bits: &mut [u64],
    word: u64,
    cols: &[u64],
    words: &[u64],
    semiring: Semiring,
) -> bool
    requires lor { semiring.add.kind ≡ Lor }
    requires lengths { length words.now ≡ length cols.now }
    requires inside { All (λ col. col < 64 * length bits.old) cols.now }
    ensures yes { result ≡ true → (terms : List Term) → AreTruths semiring.add.op terms bits.old bits.old
        → AreTruths semiring.add.op
        (terms ++ times_row semiring.multiply word (entries_along 0 cols.now words.now)) bits.new bits.new }
    ensures no { result ≡ false → bits.new ≡ bits.old }
{
    if !are_true(word, words, semiring.multiply) {
        return false;
    }
    for k in 0..cols.len() {
        set_bit(bits, cols[k] as usize);
    }
    true
}

/// Adds the products of a row of A with B, each entry times the row of B that its column names, where no bit is set.
#[tactic(auto, using(crate::proofs::Arms::same_truths))]
fn add_rows(
    bits: &mut [u64],
    trues: &mut [u64],
    row: Row<'_>,
    b: &Sparse,
    hints: &RowHints,
    semiring: Semiring,
)
    requires lor { semiring.add.kind ≡ Lor }
    requires trues { length trues.old ≡ length bits.old }
    requires lengths { length row.words.now ≡ length row.cols.now }
    requires inside { b.now.cols ≤ 64 * length bits.old }
    requires none { AreClear bits.old }
    requires all_false { AreClear trues.old }
    ensures { AreTruths semiring.add.op
        (terms_of_row semiring.multiply (entries_along row.entry.index row.entry.cols.now row.entry.words.now) b.now)
        bits.new trues.new }
{
    // All that runs below the arms is inlined, so that its loops are compiled for each.
    with_semirings!(
        semiring,
        own,
        add_rows_by(bits, trues, row, b, hints, own),
        Lor Land Bool,
    )
}

/// What `add_rows` does, by one semiring of its arms.
#[inline(always)]
fn add_rows_by(
    bits: &mut [u64],
    trues: &mut [u64],
    row: Row<'_>,
    b: &Sparse,
    hints: &RowHints,
    semiring: Semiring,
)
    requires lor { semiring.add.kind ≡ Lor }
    requires trues { length trues.old ≡ length bits.old }
    requires lengths { length row.words.now ≡ length row.cols.now }
    requires inside { b.now.cols ≤ 64 * length bits.old }
    requires none { AreClear bits.old }
    requires all_false { AreClear trues.old }
    ensures { AreTruths semiring.add.op
        (terms_of_row semiring.multiply (entries_along row.entry.index row.entry.cols.now row.entry.words.now) b.now)
        bits.new trues.new }
{
    let mut last = 0;
    for k in 0..row.cols.len() {
        let (cols, words, next) = b.row_near(row.cols[k], hints.of(row.cols[k], last));
        last = next;
        add_products(bits, trues, row.words[k], cols, words, semiring);
    }
}

/// Writes at each place whether its bit is set.
pub(crate) fn write_truths(sums: &mut [u64], trues: &[u64])
    requires { length sums.old ≤ 64 * length trues.now }
    ensures length { length sums.new ≡ length sums.old }
    ensures words { (at : ℕ) → at < length sums.old → slice_index sums.new at ≡ truth (has_bit trues.now at) }
{
    for at in 0..sums.len() {
        sums[at] = u64::from(has_bit(trues, at));
    }
}

/// Makes the sums those of the row of the product with B that a row of A gives. They are gathered as bits, and written
/// as words at the end.
pub(crate) fn sum_truths(
    bits: &mut [u64],
    sums: &mut [u64],
    trues: &mut Vec<u64>,
    row: Row<'_>,
    b: &Sparse,
    hints: &RowHints,
    semiring: Semiring,
) -> Result<(), NoMemory>
    requires lor { semiring.add.kind ≡ Lor }
    requires room { HaveRoom bits.old sums.old }
    requires lengths { length row.words.now ≡ length row.cols.now }
    requires inside { b.now.cols ≤ length sums.old }
    requires none { AreClear bits.old }
    ensures { OnOk result (AreColumnSums semiring.add.op
        (terms_of_row semiring.multiply (entries_along row.entry.index row.entry.cols.now row.entry.words.now) b.now)
        bits.new sums.new) }
{
    trues.clear();
    trues.resize(bits.len(), 0)?;
    add_rows(bits, trues, row, b, hints, semiring);
    write_truths(sums, trues);
    Ok(())
}
