//! One row of a product.
ghost use Rattle.std.specs.Prelude.{◌≡◌, ◌/◌, ◌<◌, ◌≤◌, ◌^◌, ℕ, length, true, IfOk, IfSome, OnOk};
ghost use Rattle.std.specs.List.{All, AllPairs};
ghost use Rattle.store.specs.Fibers.{entries_along};
ghost use Rattle.spgemm.specs.Dense.{AreClear, AreColumnSums, HaveRoom};
ghost use Rattle.terms.specs.Marked.{lets_marked};
ghost use Rattle.spgemm.specs.Products.{HasOpenRow, HasRow};
ghost use Rattle.terms.specs.Terms.{AreFirstKept, AreFirstTerms, kept_terms, terms_of_row};

use crate::dense::{MOST_PLACES, fit, gather, sum_at_once, sum_densely, sum_in_span};
use crate::keep::keep_bits;
use crate::many::{exceeds_columns, sum_many};
use crate::span::{most_collected, pays, span_of};
use crate::truths::{are_truths, sum_truths};
use algebra::Semiring;
use masks::MarkedMask;
use model::NoMemory;
use sorting::Sorter;
use std::alloc::Global;
use std::ops::Range;
use store::{FiberLists, Row, RowHints, Sparse};
use terms::{Term, expand, sum_runs};

/// Memory that serves one row after another: terms, and what they are sorted in; sums with a place for each column,
/// each with a bit, and where there are many products with a mark, that says whether there is one, or a bit, that says
/// whether it is true; bits of the columns that a mask keeps; hints where the rows of B lie; and how many products the
/// rows had since one whose products span many columns. Between rows no bit is set that says where a sum is.
#[derive(Drop)]
pub(crate) struct Scratch {
    pub(crate) terms: Vec<Term>,
    pub(crate) sorter: Sorter,
    pub(crate) bits: Vec<u64>,
    pub(crate) sums: Vec<u64>,
    pub(crate) marks: Vec<bool>,
    pub(crate) trues: Vec<u64>,
    pub(crate) kept: Vec<u64>,
    pub(crate) hints: RowHints,
    pub(crate) compact: usize,
}

impl Scratch {
    /// No memory yet but the hints.
    pub(crate) fn new(alloc: Global, hints: RowHints) -> Scratch
        ensures room { HaveRoom result.bits.items result.sums.items }
        ensures none { AreClear result.bits.items }
    {
        Scratch {
            terms: Vec::new(alloc),
            sorter: Sorter::new(alloc),
            bits: Vec::new(alloc),
            sums: Vec::new(alloc),
            marks: Vec::new(alloc),
            trues: Vec::new(alloc),
            kept: Vec::new(alloc),
            hints,
            compact: 0,
        }
    }

    /// Makes places for the sums at so many columns at once, where these are few beside the entries, along which
    /// the product goes anyhow.
    pub(crate) fn make_places(&mut self, cols: u64, entries: usize) -> Result<(), NoMemory>
        requires room { HaveRoom self.old.bits.items self.old.sums.items }
        requires none { AreClear self.old.bits.items }
        ensures room { OnOk result (HaveRoom self.new.bits.items self.new.sums.items) }
        ensures none { OnOk result (AreClear self.new.bits.items) }
    {
        if cols <= MOST_PLACES && cols as usize / 8 <= entries {
            fit(&mut self.bits, &mut self.sums, cols)?;
        }
        Ok(())
    }

    /// Whether the products of the next row are expected to span few columns of so many: those of the rows before it
    /// did. There were so many that to look through the places of all columns is no more work, if this one differs.
    fn expects_compact(&self, cols: u64) -> bool
        ensures { result ≡ true → cols < length self.now.sums.items }
    {
        cols < self.sums.len() as u64 && self.bits.len() <= self.compact
    }
}

/// Puts the row of the product with B that a row of A gives, at all columns, behind the rows in the lists.
pub(crate) fn multiply_whole_row(
    lists: &mut FiberLists,
    scratch: &mut Scratch,
    row: Row<'_>,
    b: &Sparse,
    semiring: Semiring,
) -> Result<(), NoMemory>
    requires lengths { length row.words.now ≡ length row.cols.now }
    requires rising { AllPairs (λ p q. p < q) row.cols.now }
    requires room { HaveRoom scratch.old.bits.items scratch.old.sums.items }
    requires none { AreClear scratch.old.bits.items }
    ensures row { OnOk result (HasRow semiring.add.op row.entry.index
        (terms_of_row semiring.multiply (entries_along row.entry.index row.entry.cols.now row.entry.words.now) b.now)
        lists.old lists.new) }
    ensures room { OnOk result (HaveRoom scratch.new.bits.items scratch.new.sums.items) }
    ensures none { OnOk result (AreClear scratch.new.bits.items) }
{
    sum_row(lists, scratch, row, b, semiring)?;
    lists.close(row.index)
}

/// Puts the sums of the row of the product with B that a row of A gives behind the inner indices and words. A row
/// whose products are expected to span few columns is added at once.
pub(crate) fn sum_row(
    lists: &mut FiberLists,
    scratch: &mut Scratch,
    row: Row<'_>,
    b: &Sparse,
    semiring: Semiring,
) -> Result<(), NoMemory>
    requires lengths { length row.words.now ≡ length row.cols.now }
    requires rising { AllPairs (λ p q. p < q) row.cols.now }
    requires room { HaveRoom scratch.old.bits.items scratch.old.sums.items }
    requires none { AreClear scratch.old.bits.items }
    ensures row { OnOk result (HasOpenRow semiring.add.op row.entry.index
        (terms_of_row semiring.multiply (entries_along row.entry.index row.entry.cols.now row.entry.words.now) b.now)
        lists.old lists.new) }
    ensures room { OnOk result (HaveRoom scratch.new.bits.items scratch.new.sums.items) }
    ensures none { OnOk result (AreClear scratch.new.bits.items) }
{
    if !scratch.expects_compact(b.cols()) {
        return sum_collected(lists, scratch, row, b, semiring);
    }
    let Scratch {
        bits,
        sums,
        hints,
        compact,
        ..
    } = scratch;
    let reach = sum_at_once(lists, bits, sums, row, b, hints, semiring)?;
    *compact = if reach.pays(b.cols(), sums.len()) {
        compact.saturating_add(reach.count)
    } else {
        0
    };
    Ok(())
}

/// What `sum_row` does, by a list of products. Where there are many beside the columns, or beside those that they
/// span, it sums in a place for each column, else it sorts them.
fn sum_collected(
    lists: &mut FiberLists,
    scratch: &mut Scratch,
    row: Row<'_>,
    b: &Sparse,
    semiring: Semiring,
) -> Result<(), NoMemory>
    requires lengths { length row.words.now ≡ length row.cols.now }
    requires rising { AllPairs (λ p q. p < q) row.cols.now }
    requires room { HaveRoom scratch.old.bits.items scratch.old.sums.items }
    requires none { AreClear scratch.old.bits.items }
    ensures row { OnOk result (HasOpenRow semiring.add.op row.entry.index
        (terms_of_row semiring.multiply (entries_along row.entry.index row.entry.cols.now row.entry.words.now) b.now)
        lists.old lists.new) }
    ensures room { OnOk result (HaveRoom scratch.new.bits.items scratch.new.sums.items) }
    ensures none { OnOk result (AreClear scratch.new.bits.items) }
{
    let done = collect_terms(scratch, row, b, None, semiring)?;
    if done < row.cols.len() {
        return sum_in_places(lists, scratch, row, done, b, None, semiring);
    }
    sum_terms(lists, scratch, row.cols.len(), b.cols(), semiring)
}

/// Makes the terms the products of the first entries of a row of A with B, at the columns that the mask lets through,
/// where there is one, and answers how many entries they are of: of all, unless there are so many products that a place
/// for each column pays.
pub(crate) fn collect_terms(
    scratch: &mut Scratch,
    row: Row<'_>,
    b: &Sparse,
    mask: Option<MarkedMask<'_>>,
    semiring: Semiring,
) -> Result<usize, NoMemory>
    requires mask { IfSome mask (λ mask. mask.bitmap.now.cols ≡ 1) }
    requires lengths { length row.words.now ≡ length row.cols.now }
    ensures terms { IfOk result (AreFirstKept (lets_marked mask.entry) semiring.multiply
        (entries_along row.entry.index row.entry.cols.now row.entry.words.now) b.now scratch.new.terms.items) }
    ensures bound { IfOk result (λ done. done ≤ length row.entry.cols.now) }
    ensures stopped { IfOk result (λ done. done < length row.entry.cols.now → b.now.cols ≤ 2 ^ 24) }
    ensures bits { OnOk result (scratch.new.bits ≡ scratch.old.bits) }
    ensures sums { OnOk result (scratch.new.sums ≡ scratch.old.sums) }
{
    let most = most_collected(b.cols(), scratch.sums.len());
    let Scratch { terms, hints, .. } = scratch;
    expand(terms, row, b, hints, mask, semiring, most)
}

/// Puts the sums of the row of the product with B that a row of A gives, at the columns that the mask lets through,
/// where there is one, behind the inner indices and words. The terms are the products of the first `done` entries of
/// the row. It sums in a place for each column; what is kept out is never written.
pub(crate) fn sum_in_places(
    lists: &mut FiberLists,
    scratch: &mut Scratch,
    row: Row<'_>,
    done: usize,
    b: &Sparse,
    mask: Option<MarkedMask<'_>>,
    semiring: Semiring,
) -> Result<(), NoMemory>
    requires lengths { length row.words.now ≡ length row.cols.now }
    requires rising { AllPairs (λ p q. p < q) row.cols.now }
    requires most { b.now.cols ≤ 2 ^ 24 }
    requires mask { IfSome mask (λ mask. mask.bitmap.now.cols ≡ 1) }
    requires room { HaveRoom scratch.old.bits.items scratch.old.sums.items }
    requires none { AreClear scratch.old.bits.items }
    requires done { done ≤ length row.cols.now }
    requires terms { AreFirstTerms semiring.multiply (entries_along row.index row.cols.now row.words.now) b.now
        scratch.old.terms.items done }
    ensures row { OnOk result (HasOpenRow semiring.add.op row.entry.index
        (kept_terms (lets_marked mask.entry) (terms_of_row semiring.multiply
        (entries_along row.entry.index row.entry.cols.now row.entry.words.now) b.now))
        lists.old lists.new) }
    ensures room { OnOk result (HaveRoom scratch.new.bits.items scratch.new.sums.items) }
    ensures none { OnOk result (AreClear scratch.new.bits.items) }
{
    add_in_places(scratch, row, done, b, semiring)?;
    let Scratch { bits, sums, .. } = scratch;
    keep_bits(bits, mask);
    let count = bits.len();
    gather(lists, bits, sums, &(0..count))
}

/// Makes the sums those of the row of the product with B that a row of A gives, where the terms are the products of the
/// first `done` entries of the row.
fn add_in_places(
    scratch: &mut Scratch,
    row: Row<'_>,
    done: usize,
    b: &Sparse,
    semiring: Semiring,
) -> Result<(), NoMemory>
    requires lengths { length row.words.now ≡ length row.cols.now }
    requires rising { AllPairs (λ p q. p < q) row.cols.now }
    requires most { b.now.cols ≤ 2 ^ 24 }
    requires room { HaveRoom scratch.old.bits.items scratch.old.sums.items }
    requires none { AreClear scratch.old.bits.items }
    requires done { done ≤ length row.cols.now }
    requires terms { AreFirstTerms semiring.multiply (entries_along row.index row.cols.now row.words.now) b.now
        scratch.old.terms.items done }
    ensures sums { OnOk result (AreColumnSums semiring.add.op
        (terms_of_row semiring.multiply (entries_along row.entry.index row.entry.cols.now row.entry.words.now) b.now)
        scratch.new.bits.items scratch.new.sums.items) }
    ensures room { OnOk result (HaveRoom scratch.new.bits.items scratch.new.sums.items) }
    ensures inside { OnOk result (b.now.cols ≤ length scratch.new.sums.items) }
{
    let Scratch {
        terms,
        bits,
        sums,
        marks,
        trues,
        hints,
        ..
    } = scratch;
    fit(bits, sums, b.cols())?;
    if exceeds_columns(row.cols.len(), b) {
        if are_truths(semiring) {
            return sum_truths(bits, sums, trues, row, b, hints, semiring);
        }
        return sum_many(bits, sums, marks, row, b, hints, semiring);
    }
    sum_densely(bits, sums, terms, row, done, b, hints, semiring);
    Ok(())
}

/// Puts the sums of the terms, which are the products of so many entries and whose columns are among so many, behind
/// the inner indices and words. Where there are many beside the columns that they span, it sums in a place for each
/// column, else it sorts them.
pub(crate) fn sum_terms(
    lists: &mut FiberLists,
    scratch: &mut Scratch,
    entries: usize,
    cols: u64,
    semiring: Semiring,
) -> Result<(), NoMemory>
    requires inside { All (λ t. t.col < cols) scratch.old.terms.items }
    requires room { HaveRoom scratch.old.bits.items scratch.old.sums.items }
    requires none { AreClear scratch.old.bits.items }
    ensures row { OnOk result ((index : ℕ)
        → HasOpenRow semiring.add.op index scratch.old.terms.items lists.old lists.new) }
    ensures room { OnOk result (HaveRoom scratch.new.bits.items scratch.new.sums.items) }
    ensures none { OnOk result (AreClear scratch.new.bits.items) }
{
    let Scratch {
        terms,
        sorter,
        bits,
        sums,
        compact,
        ..
    } = scratch;
    let span = span_of(terms);
    if pays(&span, terms.len(), cols, sums.len()) {
        *compact = compact.saturating_add(terms.len());
        return sum_in_span(lists, bits, sums, terms, &span, semiring);
    }
    *compact = 0;
    sum_sorted(lists, terms, sorter, entries, &span, semiring)
}

/// Puts the sums of terms, which lie in so many runs at the most and whose columns' words of bits are in a span, behind
/// the inner indices and words. It sorts the terms.
fn sum_sorted(
    lists: &mut FiberLists,
    terms: &mut Vec<Term>,
    sorter: &mut Sorter,
    runs: usize,
    span: &Range<usize>,
    semiring: Semiring,
) -> Result<(), NoMemory>
    requires { All (λ t. (span.now.start ≤ t.col / 64) × (t.col / 64 < span.now.end)) terms.old.items }
    ensures { OnOk result ((index : ℕ) → HasOpenRow semiring.add.op index terms.old.items lists.old lists.new) }
{
    sorter.sort(terms, runs, span)?;
    sum_runs(lists, terms, semiring)
}
