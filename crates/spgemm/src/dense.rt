//! The sums of a row of a product in a list with a place for each column.
ghost use Rattle.std.specs.Prelude.{◌≡◌, ◌≢◌, ◌<◌, ◌≤◌, ◌+◌, ◌*◌, ◌/◌, ◌^◌, ◌⊎◌, if◌then◌else◌, ℕ, true};
ghost use Rattle.std.specs.Prelude.{IfOk, IfSome, OnOk};
ghost use Rattle.std.specs.Prelude.{◌++◌, ◌∷◌, [], List, length, map, slice_index, take};
ghost use Rattle.std.specs.List.{All};
ghost use Rattle.algebra.specs.declared.binary.BinaryOp.{BinaryOp};
ghost use Rattle.store.specs.Fibers.{entries_along};
ghost use Rattle.lanes.specs.Bits.{has_bit};
ghost use Rattle.spgemm.specs.Dense.{AreClear, AreColumnSums, HaveRoom, found, word_by, word_in};
ghost use Rattle.spgemm.specs.Products.{HasOpenRow};
ghost use Rattle.terms.specs.Terms.{AreFirstTerms, term_at, terms_of_row, times_row};
ghost use Rattle.terms.specs.declared.term.Term.{Term};

use crate::span::{Reach, widened_by_row, words_between};
use algebra::{BinaryOp, Semiring, with_semiring};
use lanes::{full_words, has_bit, set_bit};
use model::NoMemory;
use std::mem;
use std::ops::Range;
use store::{FiberLists, Row, RowHints, Sparse};
use terms::{AHEAD, Term, look_ahead, pays_ahead, push_sum};

/// Adds a word to the sum at a column. Whether the column was met before can't be foreseen, so there is no branch:
/// what stands at one that wasn't met is no sum. Where `met` is given, most columns were met, as all below it
/// were, and a branch is faster.
#[inline(always)]
pub(crate) fn add_at(
    bits: &mut [u64],
    sums: &mut [u64],
    col: usize,
    word: u64,
    add: BinaryOp,
    met: Option<usize>,
)
    requires room { HaveRoom bits.old sums.old }
    requires inside { col < length sums.old }
    requires met { IfSome met (λ met. (at : ℕ) → at < met → has_bit bits.old at ≡ true) }
    ensures sums { (terms : List Term) → AreColumnSums add terms bits.old sums.old
        → AreColumnSums add (terms ++ term_at col word ∷ []) bits.new sums.new }
    ensures others { (at : ℕ) → at ≢ col / 64 → slice_index bits.new at ≡ slice_index bits.old at }
    ensures stay { (at : ℕ) → has_bit bits.old at ≡ true → has_bit bits.new at ≡ true }
{
    let sum = add.eval(sums[col], word);
    if is_met(bits, col, met) {
        sums[col] = sum;
        return;
    }
    sums[col] = choose(has_bit(bits, col), sum, word);
    set_bit(bits, col);
}

/// Whether it is seen by a branch that a column was met.
#[inline(always)]
fn is_met(bits: &[u64], col: usize, met: Option<usize>) -> bool
    requires inside { col < 64 * length bits.now }
    requires met { IfSome met (λ met. (at : ℕ) → at < met → has_bit bits.now at ≡ true) }
    ensures { result ≡ true → has_bit bits.now col ≡ true }
{
    match met {
        Some(met) => col < met || has_bit(bits, col),
        None => false,
    }
}

/// All bits of a word for a truth, and none for the other.
const MASKS: [u64; 2] = [0, u64::MAX];

/// One word of two. Of a choice between a word that was loaded and another a compiler makes a branch, so the bits in
/// which the words differ are masked by what a table says.
#[inline(always)]
fn choose(is_first: bool, first: u64, second: u64) -> u64
    ensures { result ≡ (if is_first then first else second) }
{
    second.wrapping_add(first.wrapping_sub(second) & MASKS[usize::from(is_first)])
}

/// Adds a word times each entry of a row to the sum at its column.
#[inline(always)]
fn add_products(
    bits: &mut [u64],
    sums: &mut [u64],
    word: u64,
    cols: &[u64],
    words: &[u64],
    semiring: Semiring,
    met: Option<usize>,
)
    requires room { HaveRoom bits.old sums.old }
    requires lengths { length words.now ≡ length cols.now }
    requires inside { All (λ col. col < length sums.old) cols.now }
    requires met { IfSome met (λ met. (at : ℕ) → at < met → has_bit bits.old at ≡ true) }
    ensures sums { (terms : List Term) → AreColumnSums semiring.add.op terms bits.old sums.old
        → AreColumnSums semiring.add.op
        (terms ++ times_row semiring.multiply word (entries_along 0 cols.now words.now)) bits.new sums.new }
    ensures others { (at : ℕ) → All (λ col. col / 64 ≢ at) cols.now
        → slice_index bits.new at ≡ slice_index bits.old at }
    ensures stay { (at : ℕ) → has_bit bits.old at ≡ true → has_bit bits.new at ≡ true }
{
    for k in 0..cols.len() {
        let product = semiring.multiply.eval(word, words[k]);
        add_at(bits, sums, cols[k] as usize, product, semiring.add.op, met);
    }
}

/// Makes the sums those of terms.
#[tactic(auto, using(crate::proofs::Arms::same_term_sums))]
fn add_terms(bits: &mut [u64], sums: &mut [u64], terms: &[Term], semiring: Semiring)
    requires room { HaveRoom bits.old sums.old }
    requires inside { All (λ t. t.col < length sums.old) terms.now }
    requires none { AreClear bits.old }
    ensures sums { AreColumnSums semiring.add.op terms.now bits.new sums.new }
    ensures others { (at : ℕ) → All (λ t. t.col / 64 ≢ at) terms.now → slice_index bits.new at ≡ 0 }
{
    if !terms.is_empty() {
        with_semiring!(semiring, |own| add_terms_by(bits, sums, terms, own))
    }
}

/// What `add_terms` does, by one semiring of its arms.
#[inline(always)]
fn add_terms_by(bits: &mut [u64], sums: &mut [u64], terms: &[Term], semiring: Semiring)
    requires room { HaveRoom bits.old sums.old }
    requires inside { All (λ t. t.col < length sums.old) terms.now }
    requires none { AreClear bits.old }
    ensures sums { AreColumnSums semiring.add.op terms.now bits.new sums.new }
    ensures others { (at : ℕ) → All (λ t. t.col / 64 ≢ at) terms.now → slice_index bits.new at ≡ 0 }
{
    for term in terms {
        add_at(
            bits,
            sums,
            term.col as usize,
            term.word,
            semiring.add.op,
            None,
        );
    }
}

/// Adds the products of a row of A with B, from an entry of that row on, each entry times the row of B that its
/// column names, and answers how far they reach. The sums are those of the entries before.
#[tactic(auto, using(crate::proofs::Arms::same_sums))]
fn add_rows(
    bits: &mut [u64],
    sums: &mut [u64],
    row: Row<'_>,
    from: usize,
    b: &Sparse,
    hints: &RowHints,
    semiring: Semiring,
) -> Reach
    requires room { HaveRoom bits.old sums.old }
    requires lengths { length row.words.now ≡ length row.cols.now }
    requires inside { b.now.cols ≤ length sums.old }
    requires from { from ≤ length row.cols.now }
    requires before { AreColumnSums semiring.add.op (terms_of_row semiring.multiply
        (take from (entries_along row.index row.cols.now row.words.now)) b.now) bits.old sums.old }
    ensures sums { AreColumnSums semiring.add.op
        (terms_of_row semiring.multiply (entries_along row.entry.index row.entry.cols.now row.entry.words.now) b.now)
        bits.new sums.new }
    ensures others { (at : ℕ) → (at < result.span.start) ⊎ (result.span.end ≤ at)
        → slice_index bits.new at ≡ slice_index bits.old at }
    ensures order { result.span.start ≤ result.span.end }
    ensures bound { 0 < length bits.old → result.span.end ≤ length bits.old }
{
    // All that runs below the arms is inlined, so that its loops are compiled for each.
    with_semiring!(
        semiring,
        |own| add_rows_by(bits, sums, row, from, b, hints, own)
    )
}

/// What `add_rows` does, by one semiring of its arms.
#[inline(always)]
fn add_rows_by(
    bits: &mut [u64],
    sums: &mut [u64],
    row: Row<'_>,
    from: usize,
    b: &Sparse,
    hints: &RowHints,
    semiring: Semiring,
) -> Reach
    requires room { HaveRoom bits.old sums.old }
    requires lengths { length row.words.now ≡ length row.cols.now }
    requires inside { b.now.cols ≤ length sums.old }
    requires from { from ≤ length row.cols.now }
    requires before { AreColumnSums semiring.add.op (terms_of_row semiring.multiply
        (take from (entries_along row.index row.cols.now row.words.now)) b.now) bits.old sums.old }
    ensures sums { AreColumnSums semiring.add.op
        (terms_of_row semiring.multiply (entries_along row.entry.index row.entry.cols.now row.entry.words.now) b.now)
        bits.new sums.new }
    ensures others { (at : ℕ) → (at < result.span.start) ⊎ (result.span.end ≤ at)
        → slice_index bits.new at ≡ slice_index bits.old at }
    ensures order { result.span.start ≤ result.span.end }
    ensures bound { 0 < length bits.old → result.span.end ≤ length bits.old }
{
    let many = sums.len() / COLUMNS_AN_ENTRY;
    let is_ahead = pays_ahead(row.cols.len() - from, b);
    let mut full = 0;
    let mut last = 0;
    let mut ends = (u64::MAX, 0);
    let mut count: usize = 0;
    for k in from..row.cols.len() {
        if is_ahead && k % AHEAD == 0 {
            count = count.saturating_add(look_ahead(row.cols, k, b, hints, last));
        }
        let (cols, words, next) = b.row_near(row.cols[k], hints.of(row.cols[k], last));
        last = next;
        ends = widened_by_row(ends, cols);
        count = count.saturating_add(cols.len());
        if cols.len() > many {
            add_products(
                bits,
                sums,
                row.words[k],
                cols,
                words,
                semiring,
                Some(64 * full),
            );
            full = full_words(bits, full);
        } else {
            add_products(bits, sums, row.words[k], cols, words, semiring, None);
        }
    }
    Reach {
        count,
        span: words_between(ends),
    }
}

/// Where a row of B has an entry for each so many columns, most of its columns were met in rows before it.
const COLUMNS_AN_ENTRY: usize = 8;

/// Puts the words of 64 places that have their bits set behind the inner indices and words, in order.
#[inline(always)]
fn gather_word(
    lists: &mut FiberLists,
    bits: u64,
    base: usize,
    words: &[u64],
) -> Result<(), NoMemory>
    requires { base + 64 ≤ length words.now }
    ensures ends { OnOk result (lists.new.ends ≡ lists.old.ends) }
    ensures inner { OnOk result (lists.new.inner.items
        ≡ lists.old.inner.items ++ map (λ s. s.col) (found (word_by bits base words.now) base 64)) }
    ensures words { OnOk result (lists.new.words.items
        ≡ lists.old.words.items ++ map (λ s. s.word) (found (word_by bits base words.now) base 64)) }
{
    let count = bits.count_ones() as usize;
    lists.inner.reserve(count)?;
    lists.words.reserve(count)?;
    let mut left = bits;
    while left != 0 {
        let place = left.trailing_zeros();
        let at = base + place as usize;
        push_sum(
            lists,
            Term {
                col: at as u64,
                word: words[at],
            },
        );
        // The bit is cleared without its place, so that the next turn needn't wait until that is found.
        left &= left - 1;
    }
    Ok(())
}

/// Puts the words at all places that have their bits set behind the inner indices and words, in order, and
/// clears the bits. Outside a span no word of bits has one. It works on lists of its own: a compiler keeps in registers
/// where these end, but not where lists end that were lent.
#[inline(never)]
pub(crate) fn gather(
    lists: &mut FiberLists,
    bits: &mut [u64],
    words: &[u64],
    span: &Range<usize>,
) -> Result<(), NoMemory>
    requires room { HaveRoom bits.old words.now }
    requires order { span.now.start ≤ span.now.end }
    requires end { span.now.end ≤ length bits.old }
    requires before { (at : ℕ) → at < span.now.start → slice_index bits.old at ≡ 0 }
    requires behind { (at : ℕ) → span.now.end ≤ at → slice_index bits.old at ≡ 0 }
    ensures ends { OnOk result (lists.new.ends ≡ lists.old.ends) }
    ensures inner { OnOk result (lists.new.inner.items
        ≡ lists.old.inner.items ++ map (λ s. s.col) (found (word_in bits.old words.now) 0 (length words.now))) }
    ensures words { OnOk result (lists.new.words.items
        ≡ lists.old.words.items ++ map (λ s. s.word) (found (word_in bits.old words.now) 0 (length words.now))) }
    ensures clear { OnOk result (AreClear bits.new) }
{
    let none = FiberLists::new(*lists.inner.allocator());
    let mut own = mem::replace(lists, none);
    gather_words(&mut own, bits, words, span)?;
    *lists = own;
    Ok(())
}

/// What `gather` does, in lists of any owner.
#[inline(always)]
fn gather_words(
    lists: &mut FiberLists,
    bits: &mut [u64],
    words: &[u64],
    span: &Range<usize>,
) -> Result<(), NoMemory>
    requires room { HaveRoom bits.old words.now }
    requires order { span.now.start ≤ span.now.end }
    requires end { span.now.end ≤ length bits.old }
    requires before { (at : ℕ) → at < span.now.start → slice_index bits.old at ≡ 0 }
    requires behind { (at : ℕ) → span.now.end ≤ at → slice_index bits.old at ≡ 0 }
    ensures ends { OnOk result (lists.new.ends ≡ lists.old.ends) }
    ensures inner { OnOk result (lists.new.inner.items
        ≡ lists.old.inner.items ++ map (λ s. s.col) (found (word_in bits.old words.now) 0 (length words.now))) }
    ensures words { OnOk result (lists.new.words.items
        ≡ lists.old.words.items ++ map (λ s. s.word) (found (word_in bits.old words.now) 0 (length words.now))) }
    ensures clear { OnOk result (AreClear bits.new) }
{
    for at in span.start..span.end {
        let here = bits[at];
        if here != 0 {
            bits[at] = 0;
            gather_word(lists, here, 64 * at, words)?;
        }
    }
    Ok(())
}

/// Makes the sums those of the row of the product with B that a row of A gives, where the products of the first `done`
/// entries of the row are `terms`.
pub(crate) fn sum_densely(
    bits: &mut [u64],
    sums: &mut [u64],
    terms: &[Term],
    row: Row<'_>,
    done: usize,
    b: &Sparse,
    hints: &RowHints,
    semiring: Semiring,
)
    requires room { HaveRoom bits.old sums.old }
    requires lengths { length row.words.now ≡ length row.cols.now }
    requires inside { b.now.cols ≤ length sums.old }
    requires none { AreClear bits.old }
    requires done { done ≤ length row.cols.now }
    requires terms { AreFirstTerms semiring.multiply (entries_along row.index row.cols.now row.words.now) b.now
        terms.now done }
    ensures { AreColumnSums semiring.add.op
        (terms_of_row semiring.multiply (entries_along row.entry.index row.entry.cols.now row.entry.words.now) b.now)
        bits.new sums.new }
{
    add_terms(bits, sums, terms, semiring);
    add_rows(bits, sums, row, done, b, hints, semiring);
}

/// Puts the sums of terms behind the inner indices and words, where the bits of their columns lie in a span. It
/// sums in a place for each column, and leaves all bits clear.
pub(crate) fn sum_in_span(
    lists: &mut FiberLists,
    bits: &mut [u64],
    sums: &mut [u64],
    terms: &[Term],
    span: &Range<usize>,
    semiring: Semiring,
) -> Result<(), NoMemory>
    requires room { HaveRoom bits.old sums.old }
    requires inside { All (λ t. t.col < length sums.old) terms.now }
    requires none { AreClear bits.old }
    requires order { span.now.start ≤ span.now.end }
    requires end { span.now.end ≤ length bits.old }
    requires span { All (λ t. (span.now.start ≤ t.col / 64) × (t.col / 64 < span.now.end)) terms.now }
    ensures row { OnOk result ((index : ℕ) → HasOpenRow semiring.add.op index terms.now lists.old lists.new) }
    ensures clear { OnOk result (AreClear bits.new) }
{
    add_terms(bits, sums, terms, semiring);
    gather(lists, bits, sums, span)
}

/// Puts the sums of the row of the product with B that a row of A gives behind the inner indices and words, and
/// answers how far its products reach. It sums in a place for each column, and leaves all bits clear.
pub(crate) fn sum_at_once(
    lists: &mut FiberLists,
    bits: &mut [u64],
    sums: &mut [u64],
    row: Row<'_>,
    b: &Sparse,
    hints: &RowHints,
    semiring: Semiring,
) -> Result<Reach, NoMemory>
    requires room { HaveRoom bits.old sums.old }
    requires lengths { length row.words.now ≡ length row.cols.now }
    requires inside { b.now.cols < length sums.old }
    requires none { AreClear bits.old }
    ensures row { OnOk result (HasOpenRow semiring.add.op row.entry.index
        (terms_of_row semiring.multiply (entries_along row.entry.index row.entry.cols.now row.entry.words.now) b.now)
        lists.old lists.new) }
    ensures clear { OnOk result (AreClear bits.new) }
    ensures order { IfOk result (λ reach. reach.span.start ≤ reach.span.end) }
{
    let reach = add_rows(bits, sums, row, 0, b, hints, semiring);
    gather(lists, bits, sums, &reach.span)?;
    Ok(reach)
}

/// The greatest number of columns for which sums have places of their own.
pub(crate) const MOST_PLACES: u64 = 1 << 24;

/// Makes room for the sums at so many columns, where there is less. No bit is set.
pub(crate) fn fit(bits: &mut Vec<u64>, sums: &mut Vec<u64>, cols: u64) -> Result<(), NoMemory>
    requires most { cols ≤ 2 ^ 24 }
    requires room { HaveRoom bits.old.items sums.old.items }
    requires none { AreClear bits.old.items }
    ensures room { OnOk result (HaveRoom bits.new.items sums.new.items) }
    ensures none { OnOk result (AreClear bits.new.items) }
    ensures words { OnOk result (cols / 64 < length bits.new.items) }
{
    let count = cols as usize / 64 + 1;
    if bits.len() < count {
        bits.clear();
        bits.resize(count, 0)?;
        sums.clear();
        sums.resize(64 * count, 0)?;
    }
    Ok(())
}
